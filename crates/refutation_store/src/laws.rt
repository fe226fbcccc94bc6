//! What holds of every two fronts of one store.

ghost use Rattle.std.specs.Prelude.{◌≡◌, ◌<◌, length, slice_get};
ghost use Rattle.refutation_store.specs.Fronts.{AgreeOn};

use crate::front::Front;
use crate::store::Store;
use note_sign::tell;

/// Two fronts of one store hold the same contradiction at every place that both hold, however each came to know it. It takes
/// no memory and changes nothing.
pub fn agree(store: &Store, f: &Front, g: &Front)
    requires { (f.now.store ≡ store.now) × (g.now.store ≡ store.now) }
    ensures { AgreeOn f.now.values g.now.values }
{
    for place in 0..f.len().min(g.len()) {
        agree_at(store, f, g, place);
    }
}

/// The same of one place.
fn agree_at(store: &Store, f: &Front, g: &Front, place: usize)
    requires stores { (f.now.store ≡ store.now) × (g.now.store ≡ store.now) }
    requires place { (place < length f.now.values) × (place < length g.now.values) }
    ensures { slice_get f.now.values place ≡ slice_get g.now.values place }
{
    let one = &f.signs[place];
    let two = &g.signs[place];
    let cell = &store.cells[place];
    let mut note = cell.note();
    let mut other = cell.note();
    tell(&mut note, one);
    tell(&mut other, two);
    note.compare(other);
}

//! The list of cuts.

use cut_list::CutList;
use erc_vectors::NoMemory;
use ot_base::ClassId;

const CUTS: [(&[ClassId], usize); 5] = [
    (&[ClassId(0), ClassId(0), ClassId(2)], 0),
    (&[ClassId(0), ClassId(1)], 1),
    (&[ClassId(0), ClassId(2), ClassId(0), ClassId(0)], 0),
    (&[ClassId(1)], 2),
    (&[], 1),
];

#[test]
fn cuts_are_listed_as_they_were_put(rt: HostRuntime) -> Result<(), NoMemory> {
    let mut list = CutList::new(rt.alloc());
    for (prefix, certificate) in &CUTS {
        list.push(prefix, *certificate)?;
    }
    assert_eq!(rt; list.len(), CUTS.len());
    assert_eq!(rt; list.change(1).kept, 1);
    let cuts = list.listed(rt.alloc())?;
    for ((prefix, certificate), cut) in CUTS.iter().zip(cuts.as_slice()) {
        assert_eq!(rt; cut.prefix.as_slice(), *prefix);
        assert_eq!(rt; cut.certificate, *certificate);
    }
    assert_eq!(rt; cuts.len(), CUTS.len());
    Ok(())
}

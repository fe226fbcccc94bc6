//! The languages and the cuts that deeds tell, in lexicographic order.

ghost use Rattle.std.specs.Prelude.{◌≡◌, ◌++◌, IfOk, OnOk, IsPermutation, IsSorted, map};
ghost use Rattle.refutation.specs.Typologies.{found_of};
ghost use Rattle.std.specs.Ordering.{nat_cmp};
ghost use Rattle.std.specs.Cmp.Lexicographic.{slice_cmp};
ghost use Rattle.search_deeds.specs.Deeds.{cut_by, cuts_in, language_by, languages_in};
ghost use Rattle.search_deeds.specs.Gathered.{deeds_in, deeds_of, fate_of};

use crate::deed::{Deed, Deeds, Fate};
use crate::lexicographic::order;
use erc_vectors::{List, NoMemory};
use refutation::{Language, Prefix};
use std::alloc::Global;

/// The languages among the deeds, each with its hierarchy, in lexicographic order of their choices.
pub(crate) fn languages(alloc: Global, all: &[Deeds]) -> Result<List<Language>, NoMemory>
    ensures members { IfOk result (λ languages. IsPermutation (languages_in (deeds_of all.now)) (found_of languages)) }
    ensures sorted { IfOk result (λ languages. IsSorted (slice_cmp nat_cmp) (map (λ language. language.0) (found_of languages))) }
{
    let mut languages = Vec::new(alloc);
    for deeds in all {
        add_languages(alloc, &mut languages, deeds.as_slice())?;
    }
    languages.sort_unstable_by(|a, b| order(a.choice.as_slice(), b.choice.as_slice()));
    list_of(alloc, languages)
}

fn add_languages(
    alloc: Global,
    languages: &mut Vec<Language>,
    deeds: &[Deed],
) -> Result<(), NoMemory>
    ensures { OnOk result (found_of languages.new.items ≡ found_of languages.old.items ++ languages_in (deeds_in deeds.now)) }
{
    for deed in deeds {
        add_language(alloc, languages, deed)?;
    }
    Ok(())
}

fn add_language(alloc: Global, languages: &mut Vec<Language>, deed: &Deed) -> Result<(), NoMemory>
    ensures { OnOk result (found_of languages.new.items ≡ found_of languages.old.items ++ language_by deed.now.prefix (fate_of deed.now.fate)) }
{
    if let Fate::Language(strata) = &deed.fate {
        let language = Language {
            choice: deed.prefix.copy()?,
            strata: *strata,
        };
        languages.push(language)?;
    }
    Ok(())
}

/// The prefixes that the deeds cut off, in lexicographic order.
pub(crate) fn cut_prefixes(alloc: Global, all: &[Deeds]) -> Result<Vec<Prefix>, NoMemory>
    ensures members { IfOk result (λ prefixes. IsPermutation (cuts_in (deeds_of all.now)) prefixes.items) }
    ensures sorted { IfOk result (λ prefixes. IsSorted (slice_cmp nat_cmp) prefixes.items) }
{
    let mut prefixes = Vec::new(alloc);
    for deeds in all {
        add_cut_prefixes(alloc, &mut prefixes, deeds.as_slice())?;
    }
    prefixes.sort_unstable_by(|a, b| order(a.as_slice(), b.as_slice()));
    Ok(prefixes)
}

fn add_cut_prefixes(
    alloc: Global,
    prefixes: &mut Vec<Prefix>,
    deeds: &[Deed],
) -> Result<(), NoMemory>
    ensures { OnOk result (prefixes.new.items ≡ prefixes.old.items ++ cuts_in (deeds_in deeds.now)) }
{
    for deed in deeds {
        add_cut_prefix(alloc, prefixes, deed)?;
    }
    Ok(())
}

fn add_cut_prefix(alloc: Global, prefixes: &mut Vec<Prefix>, deed: &Deed) -> Result<(), NoMemory>
    ensures { OnOk result (prefixes.new.items ≡ prefixes.old.items ++ cut_by deed.now.prefix (fate_of deed.now.fate)) }
{
    if let Fate::Cut(_) = &deed.fate {
        prefixes.push(deed.prefix.copy()?)?;
    }
    Ok(())
}

fn list_of<T: Drop>(alloc: Global, items: Vec<T>) -> Result<List<T>, NoMemory>
    ensures { IfOk result (λ list. list ≡ items.items) }
{
    let mut list = List::new(alloc);
    for item in items {
        list.push(item)?;
    }
    Ok(list)
}

//! What a report lists, in order: names, and fetches that wait.

ghost use Rattle.std.specs.Prelude.{◌≡◌, IfOk};
ghost use Rattle.id_source.specs.Orders.{NamesRise, Rises};
ghost use Rattle.id_print.specs.Names.{IsOrderOf, IsSortedOf, AreApart, AreApartBy, WaitBefore};
ghost use Rattle.id_print.specs.Names.{OfOneFetch, site_cmp, name_cmp};

use id_source::{Ask, NameValue, Site};
use id_value::Sequence;
use std::alloc::AllocError;
use std::cmp::Ordering;

/// The names by path and place. Takes no memory.
pub fn sorted_names(names: Sequence<NameValue>) -> Sequence<NameValue>
    ensures sorted { IsSortedOf result names }
    ensures rise { AreApart names → NamesRise result }
{
    let mut names = names.into_vec();
    names.sort_unstable_by(|a, b| compare_names(a, b));
    Sequence::new(names)
}

/// The fetches by path and place. They come in runs too, and merging those takes memory as well.
pub fn sorted_asks(asks: Sequence<Ask>) -> Result<Sequence<Ask>, AllocError>
    ensures sorted { IfOk result (λ r. IsOrderOf WaitBefore r asks) }
    ensures rise { IfOk result (λ r. AreApartBy OfOneFetch asks → Rises WaitBefore r) }
{
    let mut asks = asks.into_vec();
    asks.sort_by(|a, b| compare_sites(&a.fetch, &b.fetch))?;
    Ok(Sequence::new(asks))
}

/// How two sites compare: by path, a front of a path first, then by place.
pub fn compare_sites(a: &Site, b: &Site) -> Ordering
    ensures { result ≡ site_cmp a.now b.now }
{
    let paths = a.path.steps.as_slice().cmp(&b.path.steps.as_slice());
    paths.then(a.place.cmp(&b.place))
}

/// How two names compare: by path, a front of a path first, then by place.
fn compare_names(a: &NameValue, b: &NameValue) -> Ordering
    ensures { result ≡ name_cmp a.now b.now }
{
    let paths = a.path.steps.as_slice().cmp(&b.path.steps.as_slice());
    paths.then(a.place.cmp(&b.place))
}

ghost use Rattle.std.specs.Prelude.{◌≡◌};
ghost use Rattle.call_table.specs.Best.{better as better_of, better_at as better_found, either_object as either, entry_cmp};

use crate::row::Found;
use ens_base::Entry;
use std::cmp::Ordering;
use stored_formats::Object;

fn compare(a: &Entry, b: &Entry) -> Ordering
    ensures { result ≡ entry_cmp a.now b.now }
{
    match a.version.cmp(&b.version) {
        Ordering::Equal => match a.digest.cmp(&b.digest) {
            Ordering::Equal => a.key.cmp(&b.key),
            order => order,
        },
        order => order,
    }
}

fn either_object(first: Option<Object>, second: Option<Object>) -> Option<Object>
    ensures { result ≡ either first second }
{
    match first {
        Some(object) => Some(object),
        None => second,
    }
}

fn better_found(best: Found, entry: Entry, object: Option<Object>) -> Found
    ensures { result ≡ better_found (entry_cmp best.entry entry) best entry object }
{
    match compare(&best.entry, &entry) {
        Ordering::Less => Found { entry, object },
        Ordering::Equal => {
            let Found {
                entry: kept,
                object: held,
            } = best;
            Found {
                entry: kept,
                object: either_object(held, object),
            }
        }
        Ordering::Greater => best,
    }
}

/// Returns the best of the replies after one more: the greatest entry, by version, digest and key,
/// and an object if a reply with this entry had one. A reply without an entry changes nothing.
pub fn better(best: Option<Found>, entry: Option<Entry>, object: Option<Object>) -> Option<Found>
    ensures { result ≡ better_of best entry object }
{
    match entry {
        None => best,
        Some(entry) => match best {
            None => Some(Found { entry, object }),
            Some(best) => Some(better_found(best, entry, object)),
        },
    }
}

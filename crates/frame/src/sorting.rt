// One list of a frame, out of the stream.
ghost use Rattle.std.specs.Prelude.{◌≡◌, ◌≤◌, List, Option, take};
ghost use Rattle.rules.specs.Frame as Rule;
ghost use Rattle.streaming.specs.declared.stream.Entry.{Entry};
ghost use Rattle.streaming.specs.Stream.{item_of, items_from};
ghost use Rattle.items.specs.Lists.{Sorted, taken};

use crate::FrameList;
use items::decode;
use streaming::stream::Entry;

// What `pick` takes of the entries, in their order, as far as there are places; `none` stands in the others.
pub fn sorted<T: Copy, const N: usize, F: Fn(Entry) -> Option<T>>(
    items: &[[u64; 5]; 2304],
    rects: &[[f64; 4]; 2304],
    n: usize,
    none: T,
    pick: F,
) -> FrameList<T, N>
    requires within { n ≤ 2304 }
    requires callable { F.IsAlwaysCallable pick }
    ensures { (f : Rule.Item → List T) → ((e : Entry) (r : Option T) → F.post pick e r → taken r ≡ f (item_of e)) → Sorted N (Rule.gather f (items_from (take n items.now) (take n rects.now))) result.at result.len }
{
    let mut at = [none; N];
    let mut len = 0usize;
    for i in 0..n {
        let e = decode::entry_of(items[i], rects[i]);
        if let Some(x) = pick(e) {
            if len < N {
                at[len] = x;
                len += 1;
            }
        }
    }
    FrameList { at, len }
}

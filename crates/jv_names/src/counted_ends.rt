ghost use Rattle.std.specs.Prelude.{◌≡◌, ◌∷◌, [], MatchOption};
ghost use Rattle.jv_names.specs.Ends.{counted_ends};

use crate::counting::counted_end;
use crate::counts::Counts;
use crate::known_paths::KnownPaths;
use jv_instance::JavaDatum;
use jv_layout::Layout;
use sg_base::Scope;
use sg_query::FoundPaths;
use std::marker::Model;

/// The ends of the paths of an answer that count, one after another, as they stand there. The paths come in rising order, so
/// each shares its beginning with the one before it, and what is known of that one is not looked at again.
#[derive(Drop)]
pub(crate) struct CountedEnds<'a> {
    layout: &'a Layout,
    counts: Counts,
    paths: &'a FoundPaths<JavaDatum>,
    /// The index of the path that comes next.
    at: usize,
    known: KnownPaths,
}

impl<'a> Model for CountedEnds<'a> {
    ghost use Rattle.std.specs.Prelude.{◌≤◌, List, drop, length};
    ghost use Rattle.sg_base.specs.declared.scope.Scope.{Scope as ScopeOf};
    ghost use Rattle.jv_names.specs.Ends.{counted_ends};
    ghost use Rattle.jv_names.specs.Known.{AreKnown};

    ghost Value = { List ScopeOf };

    ghost view = { λ e. counted_ends e.layout.now e.counts (drop e.at e.paths.now) };

    ghost invariant = { λ e. (e.at ≤ length e.paths.now) × AreKnown e.layout.now e.paths.now e.known };
}

impl<'a> CountedEnds<'a> {
    /// The ends of all paths that count.
    pub(crate) fn new(
        layout: &'a Layout,
        counts: Counts,
        paths: &'a FoundPaths<JavaDatum>,
    ) -> CountedEnds<'a>
        ensures { result ≡ counted_ends layout.now counts paths.now }
    {
        let known = KnownPaths {
            fitting: None,
            staying: None,
        };
        CountedEnds {
            layout,
            counts,
            paths,
            at: 0,
            known,
        }
    }

    /// The next end, if there is one. All ends together take time in the number of the paths' steps that are not shared with
    /// the path before, and no memory.
    pub(crate) fn next(&mut self) -> Option<Scope>
        ensures { MatchOption result (self.old ≡ []) (λ e. self.old ≡ e ∷ self.new) }
    {
        while self.at < self.paths.len() {
            let k = self.at;
            let (end, known) = counted_end(self.layout, self.counts, self.paths, self.known, k);
            self.at = k + 1;
            self.known = known;
            if let Some(end) = end {
                return Some(end);
            }
        }
        None
    }
}

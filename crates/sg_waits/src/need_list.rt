ghost use Rattle.std.specs.Prelude.{◌≡◌, ◌<◌, length, IfOk};
ghost use Rattle.sg_base.specs.List.{IsRising};
ghost use Rattle.sg_state.specs.Need.{need_cmp};
ghost use Rattle.sg_waits.specs.Waits.{IsRisingOf};

use sg_state::Need;
use std::alloc::{AllocError, Global};
use std::marker::Model;

/// What a waiting unit needs, at least one thing, which contracts see as a rising list.
#[derive(Drop)]
pub struct NeedList {
    needs: Vec<Need>,
}

impl Model for NeedList {
    ghost use Rattle.std.specs.Prelude.{List, ◌<◌, length};
    ghost use Rattle.sg_base.specs.List.{IsRising};
    ghost use Rattle.sg_state.specs.declared.need.Need.{Need};
    ghost use Rattle.sg_state.specs.Need.{need_cmp};

    ghost Value = { List Need };

    ghost view = { λ l. l.needs.items };

    ghost invariant = { λ l. IsRising need_cmp l.needs.items × (0 < length l.needs.items) };
}

impl NeedList {
    /// These needs in rising order, each once. Costs one sort.
    pub fn of(alloc: Global, needs: &[Need]) -> Result<NeedList, AllocError>
        requires some { 0 < length needs.now }
        ensures { IfOk result (λ l. IsRisingOf needs.now l) }
    {
        let mut list = needs.to_vec(alloc)?;
        list.sort_unstable();
        list.dedup();
        Ok(NeedList { needs: list })
    }

    /// The needs in rising order.
    pub fn as_slice(&self) -> &[Need]
        ensures all { result.now ≡ self.now }
        ensures rising { IsRising need_cmp self.now }
        ensures some { 0 < length self.now }
    {
        self.needs.as_slice()
    }
}

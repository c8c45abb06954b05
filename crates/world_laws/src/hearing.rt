// What is heard of bytes that arrive, told by a call that does nothing.
ghost use Rattle.std.specs.Prelude.{List, ℕ};
ghost use Rattle.world_laws.specs.Hearing.{HeardOnce};

/// Of any bytes that arrive one thing is heard, and no other.
pub fn law_hearing()
    ensures { (bytes : List ℕ) → HeardOnce bytes }
{
    csm_feed::law_one_hearing();
}

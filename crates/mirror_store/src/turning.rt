// Commands and messages at a party over two disks.
ghost use Rattle.std.specs.Prelude.{◌≡◌, ◌≢◌, [], true, false, IfOk, IfErr, OnOk};
ghost use Rattle.x_base.specs.declared.verdict.Verdict.TheVariants.{Accept};
ghost use Rattle.party_state.specs.declared.command.Input.TheVariants.{Ordered, Arrived};
ghost use Rattle.party_state.specs.State.{apply};
ghost use Rattle.party_state.specs.Verdicts.{is_accept};
ghost use Rattle.change_code.specs.declared.format.Format.TheVariants.{Two};
ghost use Rattle.change_code.specs.Whole.{IsTooLarge};
ghost use Rattle.node_core.specs.Turns.{member_of};
ghost use Rattle.mirror_store.specs.Pairs.{IsTwin};
ghost use Rattle.mirror_store.specs.Turns.{IsPairTurn, pair_plan, pair_plan_at};

use crate::mirror::{Mirror, PairTurn};
use crate::pair::{PairCause, PairUnmade};
use change_code::{WholeFault, law_can_compact};
use csm_grammar::Arrival;
use disk_pair::Disks;
use key_journal::Unmade;
use key_store::{FramedState, Store};
use member::law_refusal;
use node_core::{Planned, Turn};
use party_state::{Command, Input};
use std::alloc::Global;
use x_base::{NoMemory, Verdict};
use x_disk::Disk;

fn is_accepted(verdict: Verdict) -> bool
    ensures { result ≡ is_accept verdict }
{
    verdict == Verdict::Accept
}

/// Whether what is planned changes the party.
fn has_edits<D: Disk>(planned: &Planned<D>) -> bool
    ensures some { result ≡ true → planned.now.plan.edits ≢ [] }
    ensures none { result ≡ false → planned.now.plan.edits ≡ [] }
{
    match planned.frame() {
        Some(_) => true,
        None => false,
    }
}

/// The frame of the party after what is planned.
fn frame_next<D: Disk>(alloc: Global, planned: &Planned<D>) -> Result<FramedState, WholeFault>
    ensures party { IfOk result (λ f. f ≡ apply planned.now.plan.edits planned.now.node.party) }
    ensures own { IfOk result (λ f. f.own ≡ planned.now.node.party.own) }
    ensures fits { OnOk result (IsTooLarge Two (apply planned.now.plan.edits planned.now.node.party) → ⊥) }
    ensures too_large { IfErr result (λ fault. fault ≡ WholeFault.TooLarge → IsTooLarge Two (apply planned.now.plan.edits planned.now.node.party)) }
{
    match planned.next(alloc) {
        Ok(state) => FramedState::of(alloc, state),
        Err(NoMemory) => Err(WholeFault::NoMemory),
    }
}

/// The party over two disks as it was before it planned.
fn given_up<D: Disk>(planned: Planned<D>, second: Store<D>) -> Mirror<D>
    requires { second.party ≡ planned.node.party }
    ensures same { result ≡ record { first = planned.node; second = second } }
    ensures stand { IsTwin D.told result }
{
    second.view();
    let node = planned.cancel();
    node.view();
    Mirror { node, second }
}

/// Hands out the answer of a plan that changes nothing. Touches neither disk.
fn answer<D: Disk>(planned: Planned<D>, second: Store<D>) -> PairTurn<D>
    requires same { second.party ≡ planned.node.party }
    requires none { planned.plan.edits ≡ [] }
    ensures { IsPairTurn D.told (record { first = planned.node; second = second }) planned.plan result }
{
    second.view();
    match planned.carry_out() {
        Turn::Done {
            node,
            verdict,
            reply,
            under,
        } => {
            let mirror = Mirror { node, second };
            if is_accepted(verdict) {
                PairTurn::Done {
                    mirror,
                    reply,
                    under,
                }
            } else {
                PairTurn::Refused {
                    mirror,
                    verdict,
                    reply,
                    under,
                }
            }
        }
        Turn::Broken(_) => unreachable!(),
        Turn::NoMemory(_) => unreachable!(),
    }
}

/// Keeps the edits of a plan on the first disk, writes the party after them on the second, and then hands out the answer.
fn write<D: Disk>(planned: Planned<D>, second: Store<D>, framed: FramedState) -> PairTurn<D>
    requires same { second.party ≡ planned.node.party }
    requires changes { planned.plan.edits ≢ [] }
    requires accepted { planned.plan.verdict ≡ Accept }
    requires framed { framed ≡ apply planned.plan.edits planned.node.party }
    requires own { framed.own ≡ planned.node.party.own }
    ensures { IsPairTurn D.told (record { first = planned.node; second = second }) planned.plan result }
{
    second.view();
    match planned.carry_out() {
        Turn::Done {
            node,
            reply,
            under,
            ..
        } => match second.replace(framed) {
            Ok(second) => PairTurn::Done {
                mirror: Mirror { node, second },
                reply,
                under,
            },
            Err(broken) => {
                let Unmade { disk, cause } = broken.give_up();
                PairTurn::Broken(PairUnmade {
                    disks: Disks {
                        first: node.into_disk(),
                        second: disk,
                    },
                    cause: PairCause::Second(cause),
                })
            }
        },
        Turn::Broken(broken) => {
            let Unmade { disk, cause } = broken.give_up();
            PairTurn::Broken(PairUnmade {
                disks: Disks {
                    first: disk,
                    second: second.into_disk(),
                },
                cause: PairCause::First(cause),
            })
        }
        Turn::NoMemory(_) => unreachable!(),
    }
}

/// Carries out a plan on both disks, for which all memory is taken before the first disk call. Where nothing changes neither
/// is touched.
fn carry_out<D: Disk>(alloc: Global, planned: Planned<D>, second: Store<D>) -> PairTurn<D>
    requires same { second.party ≡ planned.node.party }
    requires accepted { planned.plan.edits ≢ [] → planned.plan.verdict ≡ Accept }
    ensures { IsPairTurn D.told (record { first = planned.node; second = second }) (pair_plan planned.node.party planned.plan) result }
{
    law_can_compact();
    second.view();
    if !has_edits(&planned) {
        return answer(planned, second);
    }
    match frame_next(alloc, &planned) {
        Ok(framed) => write(planned, second, framed),
        Err(WholeFault::TooLarge) => PairTurn::Refused {
            mirror: given_up(planned, second),
            verdict: Verdict::JournalFull,
            reply: None,
            under: None,
        },
        Err(WholeFault::NoMemory) => PairTurn::NoMemory(given_up(planned, second)),
    }
}

impl<D: Disk> Mirror<D> {
    /// Decides of a command or a message at a moment by the party's role, keeps the change on both disks, and then hands out
    /// the reply. What is refused changes nothing, and a refused message may be answered.
    pub fn turn(self, alloc: Global, input: &Input, moment: u64) -> PairTurn<D>
        ensures { IsPairTurn D.told self (pair_plan_at (member_of self.first) input.now moment) result }
    {
        law_refusal();
        self.view();
        let Mirror { node, second } = self;
        match node.plan(alloc, input, moment) {
            Ok(planned) => carry_out(alloc, planned, second),
            Err(node) => PairTurn::NoMemory(Mirror { node, second }),
        }
    }

    /// The turn of a message that arrived.
    pub fn take(self, alloc: Global, arrival: Arrival, moment: u64) -> PairTurn<D>
        ensures { IsPairTurn D.told self (pair_plan_at (member_of self.first) (Arrived arrival) moment) result }
    {
        self.turn(alloc, &Input::Arrived(arrival), moment)
    }

    /// The turn of an operator's command.
    pub fn order(self, alloc: Global, command: Command, moment: u64) -> PairTurn<D>
        ensures { IsPairTurn D.told self (pair_plan_at (member_of self.first) (Ordered command) moment) result }
    {
        self.turn(alloc, &Input::Ordered(command), moment)
    }
}

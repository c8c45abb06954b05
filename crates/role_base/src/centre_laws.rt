// What a centre serves besides requests, and how it refuses everything else, by calls that do nothing.
ghost use Rattle.std.specs.Prelude.{◌≡◌, ◌↔◌, ℕ, List};
ghost use Rattle.x_base.specs.declared.verdict.Verdict.TheVariants.{Accept, WrongClass};
ghost use Rattle.party_state.specs.declared.command.Command.{Command as TheCommand};
ghost use Rattle.party_state.specs.State.{Party};
ghost use Rattle.role_base.specs.Conditions.{other_class};
ghost use Rattle.role_base.specs.Beginning.{AllBeginFree};
ghost use Rattle.role_base.specs.Apart.{AreApart};
ghost use Rattle.role_base.specs.Centres.{centre_command, unserved};
ghost use Rattle.role_base.specs.Serving.{IsOwnLoad, LoadsOwn, RefusesAnswer, RefusesOther};

use crate::laws::law_loads;

/// Of commands a centre accepts exactly loading under its own label, where the key-encrypting key can
/// be loaded; every other command is of the wrong class. The edits of a command's row are apart, and
/// begin nothing.
pub fn law_commands()
    ensures exactly { (p : Party) (c : TheCommand) → ((centre_command p c).verdict ≡ Accept) ↔ LoadsOwn p c }
    ensures others { (p : Party) (c : TheCommand) → (IsOwnLoad c → ⊥) → (centre_command p c).verdict ≡ WrongClass }
    ensures apart { (p : Party) (c : TheCommand) → AreApart (centre_command p c).edits }
    ensures begins { (p : Party) (c : TheCommand) → AllBeginFree p (centre_command p c).edits }
{
    law_loads();
}

/// The number with which a message is refused that no centre serves, or that this centre doesn't.
pub fn law_unserved()
    ensures answers { (p : Party) (receiver originator : List ℕ) → RefusesAnswer p receiver originator (unserved p receiver originator).verdict }
    ensures others { (p : Party) (receiver originator known : List ℕ) → RefusesOther p receiver originator known (other_class p receiver originator known).verdict }
{}

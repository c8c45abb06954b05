// What is known of the rows of commands, by calls that do nothing.
ghost use Rattle.std.specs.Prelude.{◌≡◌, ◌↔◌, ◌++◌, ◌∷◌, [], Bool, true, false, IsTrue, ℕ, List, Option, Some, None};
ghost use Rattle.x_base.specs.declared.key_name.KeyName.{KeyName as TheKeyName};
ghost use Rattle.x_base.specs.declared.party.Side.{Side as TheSide};
ghost use Rattle.x_base.specs.declared.verdict.Verdict.TheVariants.{Accept, UnknownKk};
ghost use Rattle.x_mac.specs.declared.pair.Pair.{Pair as ThePair};
ghost use Rattle.x_gen.specs.declared.generator.Gen.{Gen as TheGen};
ghost use Rattle.party_state.specs.declared.command.Command.{Command as TheCommand};
ghost use Rattle.party_state.specs.declared.command.Command.TheVariants as commands;
ghost use Rattle.party_tables.specs.declared.exchange.Exchange.{Exchange as TheExchange};
ghost use Rattle.party_tables.specs.declared.link.LinkRec.{LinkRec as TheLink};
ghost use Rattle.party_state.specs.Ranges.{IsParty};
ghost use Rattle.party_state.specs.State.{Party, apply, exchange_with, knows};
ghost use Rattle.party_state.specs.Verdicts.{is_accept};
ghost use Rattle.role_base.specs.Beginning.{AllBeginFree};
ghost use Rattle.role_base.specs.Apart.{AreApart};
ghost use Rattle.role_base.specs.Loading.{CanLoad, Loads};
ghost use Rattle.role_base.specs.Order.{InOrder};
ghost use Rattle.role_base.specs.Sending.{sending_tests};
ghost use Rattle.bank_orders.specs.declared.draws.KkDrawn.{KkDrawn as TheKkDrawn};
ghost use Rattle.bank_orders.specs.Start.{start_tests};
ghost use Rattle.bank_orders.specs.StartKk.{kk_tests};
ghost use Rattle.bank_orders.specs.Ask.{centre_front, ask_tests};
ghost use Rattle.bank_orders.specs.Translate.{translate_tests};
ghost use Rattle.bank_orders.specs.Ending.{end_tests};
ghost use Rattle.bank_orders.specs.Orders.{command_row};
ghost use Rattle.bank_orders.specs.Starts.{CanStart, Starts, CanStartKk};
ghost use Rattle.bank_orders.specs.SendsKk.{SendsKk};
ghost use Rattle.bank_orders.specs.Asks.{AsksPeer, CanAskCentre, AsksCentre, CanAskToTranslate, SendsToTranslate};
ghost use Rattle.bank_orders.specs.Ends.{CanEnd, EndsKey, WritesAgain, Purges};
ghost use Rattle.bank_orders.specs.GivesUp.{GivesUp};

use party_state::{law_accept, law_drop, law_found, law_put, law_same};
use role_base::{law_loads, law_sends};
use x_gen::law_draws_odd;
use x_seal::law_unwraps;

/// The edits of an accepted command's row are apart.
pub fn law_orders_apart()
    ensures { (p : Party) (c : TheCommand) (moment : ℕ) → is_accept (command_row p c moment).verdict ≡ true → AreApart (command_row p c moment).edits }
{
    law_accept();
    law_same();
    law_found();
    law_put();
}

/// The tests of commands are made in the order.
pub fn law_order()
    ensures start { (p : Party) (peer : List ℕ) (found : Option TheLink) (l : TheLink) (drawn : Option (ℕ × TheGen)) → InOrder (start_tests p peer found ++ sending_tests p l drawn) }
    ensures start_kk { (p : Party) (peer new : List ℕ) (found : Option TheLink) (l : TheLink) (drawn : Option TheKkDrawn) → InOrder (start_tests p peer found ++ kk_tests p l new drawn) }
    ensures ask { (p : Party) (centre u : List ℕ) → InOrder (ask_tests p centre u) }
    ensures translate { (p : Party) (centre u : List ℕ) (l : TheLink) (drawn : Option (ℕ × TheGen)) → InOrder (centre_front p centre u ++ translate_tests l drawn) }
    ensures translate_front { (p : Party) (centre u : List ℕ) → InOrder (centre_front p centre u ++ (false, UnknownKk) ∷ []) }
    ensures end { (p : Party) (peer : List ℕ) (found : Bool) → InOrder (end_tests p peer found) }
{}

/// An accepted command begins an exchange only with a peer with whom none stands.
pub fn law_begins()
    ensures { (p : Party) (c : TheCommand) (moment : ℕ) → is_accept (command_row p c moment).verdict ≡ true → AllBeginFree p (command_row p c moment).edits }
{
    law_accept();
    law_found();
}

/// A key-encrypting key is loaded exactly where it can be, and what stands then.
pub fn law_loads_at_bank()
    ensures exactly { (p : Party) (peer label : List ℕ) (side : TheSide) (pair : ThePair) (moment : ℕ) → ((command_row p (commands.Load peer label side pair) moment).verdict ≡ Accept) ↔ CanLoad p peer label side pair }
    ensures leaves { (p : Party) (peer label : List ℕ) (side : TheSide) (pair : ThePair) (moment : ℕ) →
        Loads p (apply (command_row p (commands.Load peer label side pair) moment).edits p) (command_row p (commands.Load peer label side pair) moment) (record { peer = peer; label = label; side = side }) pair }
{
    law_loads();
}

/// A new data key is started exactly where it can be, and then goes out under the link that was asked
/// for.
pub fn law_starts()
    ensures exactly { (p : Party) (peer : List ℕ) (label : Option (List ℕ)) (moment : ℕ) → ((command_row p (commands.Start peer label) moment).verdict ≡ Accept) ↔ CanStart p peer label moment }
    ensures sends { (p : Party) (peer : List ℕ) (label : Option (List ℕ)) (moment : ℕ) → (command_row p (commands.Start peer label) moment).verdict ≡ Accept →
        Starts p (apply (command_row p (commands.Start peer label) moment).edits p) (command_row p (commands.Start peer label) moment) peer label moment }
{
    law_accept();
    law_same();
    law_found();
    law_put();
    law_sends();
}

/// A new key-encrypting key is started exactly where it can be, and then goes out with a data key
/// under it.
pub fn law_starts_kk()
    ensures exactly { (p : Party) (peer : List ℕ) (label : Option (List ℕ)) (new : List ℕ) (single : Bool) (moment : ℕ) → ((command_row p (commands.StartKk peer label new single) moment).verdict ≡ Accept) ↔ CanStartKk p peer label new single moment }
    ensures sends { (p : Party) (peer : List ℕ) (label : Option (List ℕ)) (new : List ℕ) (single : Bool) (moment : ℕ) → (command_row p (commands.StartKk peer label new single) moment).verdict ≡ Accept →
        SendsKk p (apply (command_row p (commands.StartKk peer label new single) moment).edits p) (command_row p (commands.StartKk peer label new single) moment) peer label new single moment }
{
    law_accept();
    law_same();
    law_found();
    law_put();
    law_drop();
    law_unwraps();
    law_draws_odd();
}

/// A peer that is known is asked for a data key, and nothing changes.
pub fn law_asks()
    ensures exactly { (p : Party) (peer : List ℕ) (moment : ℕ) → ((command_row p (commands.Ask peer None) moment).verdict ≡ Accept) ↔ IsTrue (knows peer p) }
    ensures asks { (p : Party) (peer : List ℕ) (moment : ℕ) → AsksPeer p (apply (command_row p (commands.Ask peer None) moment).edits p) (command_row p (commands.Ask peer None) moment) peer }
{
    law_accept();
}

/// A centre is asked for a key that is shared with an ultimate recipient exactly where it can be, and
/// what goes out then.
pub fn law_asks_centre()
    ensures exactly { (p : Party) (centre u : List ℕ) (moment : ℕ) → ((command_row p (commands.Ask centre (Some u)) moment).verdict ≡ Accept) ↔ CanAskCentre p centre u }
    ensures asks { (p : Party) (centre u : List ℕ) (moment : ℕ) → AsksCentre p (apply (command_row p (commands.Ask centre (Some u)) moment).edits p) (command_row p (commands.Ask centre (Some u)) moment) centre u }
{
    law_accept();
    law_put();
    law_drop();
}

/// A key is sent to a translation centre exactly where it can be, and what goes out then.
pub fn law_sends_to_translate()
    ensures exactly { (p : Party) (centre u : List ℕ) (moment : ℕ) → ((command_row p (commands.Translate centre u) moment).verdict ≡ Accept) ↔ CanAskToTranslate p centre u moment }
    ensures sends { (p : Party) (centre u : List ℕ) (moment : ℕ) → (command_row p (commands.Translate centre u) moment).verdict ≡ Accept →
        SendsToTranslate p (apply (command_row p (commands.Translate centre u) moment).edits p) (command_row p (commands.Translate centre u) moment) centre u moment }
{
    law_accept();
    law_same();
    law_found();
    law_put();
    law_drop();
    law_unwraps();
    law_draws_odd();
}

/// The text of an exchange is written again exactly where one stands, and nothing changes.
pub fn law_writes_again()
    ensures exactly { (p : Party) (peer : List ℕ) (moment : ℕ) → ((command_row p (commands.Resend peer) moment).verdict ≡ Accept) ↔ ((e : TheExchange) × (exchange_with peer p ≡ Some e)) }
    ensures again { (p : Party) (peer : List ℕ) (moment : ℕ) → (command_row p (commands.Resend peer) moment).verdict ≡ Accept →
        WritesAgain p (apply (command_row p (commands.Resend peer) moment).edits p) (command_row p (commands.Resend peer) moment) peer }
{}

/// A key is discontinued exactly where it can be, and what goes out then.
pub fn law_ends()
    ensures exactly { (p : Party) (peer : List ℕ) (name : TheKeyName) (moment : ℕ) → ((command_row p (commands.End peer name) moment).verdict ≡ Accept) ↔ CanEnd p peer name }
    ensures ends { (p : Party) (peer : List ℕ) (name : TheKeyName) (moment : ℕ) → (command_row p (commands.End peer name) moment).verdict ≡ Accept →
        EndsKey p (apply (command_row p (commands.End peer name) moment).edits p) (command_row p (commands.End peer name) moment) peer name }
{
    law_accept();
    law_same();
    law_found();
    law_put();
    law_drop();
}

/// An exchange is given up exactly where one stands, and what becomes of what was sent in it.
pub fn law_gives_up()
    ensures exactly { (p : Party) (peer : List ℕ) (moment : ℕ) → ((command_row p (commands.Drop peer) moment).verdict ≡ Accept) ↔ ((e : TheExchange) × (exchange_with peer p ≡ Some e)) }
    ensures leaves { (p : Party) (peer : List ℕ) (moment : ℕ) (e : TheExchange) → exchange_with peer p ≡ Some e →
        GivesUp p (apply (command_row p (commands.Drop peer) moment).edits p) (command_row p (commands.Drop peer) moment) peer e }
{
    law_same();
    law_found();
    law_put();
    law_drop();
}

/// The records of ended keys are purged whenever that is asked for.
pub fn law_purges()
    ensures accepted { (p : Party) (moment : ℕ) → (command_row p commands.Purge moment).verdict ≡ Accept }
    ensures purges { (p : Party) (moment : ℕ) → IsParty p → Purges p (apply (command_row p commands.Purge moment).edits p) (command_row p commands.Purge moment) }
{
    law_drop();
}

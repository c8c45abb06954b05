ghost use Rattle.std.specs.Prelude.{◌≡◌, ◌&&◌, not, bytes_eq, length, slice_get, IfSome, option_map};
ghost use Rattle.std.specs.List.{find, list_any};
ghost use Rattle.x_base.specs.Names.{IsIdent};
ghost use Rattle.party_tables.specs.declared.link.LinkRec.{LinkRec as TheLink};
ghost use Rattle.party_tables.specs.Ranges.{IsLink, IsRecord, IsExchange, IsCentreAnswer};
ghost use Rattle.party_state.specs.Ranges.{IsGen};
ghost use Rattle.party_state.specs.State as party;

use crate::compare::{are_same, can_be_used, expand_alike, is_alias};
use crate::parts::Parts;
use crate::ranges::law_generator;
use crate::state::State;
use party_tables::{
    Answer, AnswerKey, Exchange, KeyRec, LinkKey, LinkRec, RecordKey, Table, law_ident,
};
use x_base::{Ident, KeyName, Label, Role, Side};
use x_gen::Gen;
use x_mac::Pair;

fn first_usable<'a>(
    links: &'a Table<LinkKey, LinkRec>,
    peer: &Ident,
    side: Side,
) -> Option<&'a LinkRec>
    ensures { option_map (λ l. l.now) result ≡ find (party.is_usable peer.now side) links.now.0 }
{
    links.rows().find(|link| can_be_used(peer, side, *link))
}

/// Whether a link names another identity that expands as this one does.
fn names_alias(links: &Table<LinkKey, LinkRec>, peer: &Ident) -> bool
    ensures { result ≡ list_any (λ (l : TheLink). not (bytes_eq peer.now l.peer) && party.expands_alike peer.now l.peer) links.now.0 }
{
    links.rows().any(|link| is_alias(peer, &link.peer))
}

impl State {
    /// The party's own identity.
    pub fn own(&self) -> Ident
        ensures own { result ≡ self.now.own }
        ensures ident { IsIdent self.now.own }
    {
        let parts: &Parts = &self.parts;
        law_ident(&parts.own);
        parts.own
    }

    /// What the party is.
    pub fn role(&self) -> Role
        ensures { result ≡ self.now.role }
    {
        let parts: &Parts = &self.parts;
        parts.role
    }

    /// The generator as it stands.
    pub fn generator(&self) -> Gen
        ensures generator { result ≡ self.now.generator }
        ensures in_range { IsGen self.now.generator }
    {
        let parts: &Parts = &self.parts;
        law_generator(&parts.generator);
        parts.generator
    }

    /// The link with that peer, label and side.
    pub fn link(&self, peer: &Ident, label: &Label, side: Side) -> Option<&LinkRec>
        ensures found { option_map (λ l. l.now) result ≡ party.link_with (record { peer = peer.now; label = label.now; side = side }) self.now }
        ensures in_range { IfSome result (λ l. IsLink l.now) }
    {
        let parts: &Parts = &self.parts;
        parts.links.find(&LinkKey {
            peer: *peer,
            label: *label,
            side,
        })
    }

    /// The record of the key with that name that is shared with that peer.
    pub fn key(&self, peer: &Ident, name: &KeyName) -> Option<&KeyRec>
        ensures found { option_map (λ k. k.now) result ≡ party.record_with (record { peer = peer.now; name = name.now }) self.now }
        ensures in_range { IfSome result (λ k. IsRecord k.now) }
    {
        let parts: &Parts = &self.parts;
        parts.keys.find(&RecordKey {
            peer: *peer,
            name: *name,
        })
    }

    /// The exchange with that peer.
    pub fn exchange(&self, peer: &Ident) -> Option<&Exchange>
        ensures found { option_map (λ e. e.now) result ≡ party.exchange_with peer.now self.now }
        ensures in_range { IfSome result (λ e. IsExchange e.now) }
    {
        let parts: &Parts = &self.parts;
        parts.exchanges.find(peer)
    }

    /// The last key that was sent to that requester for that ultimate recipient.
    pub fn answer(&self, requester: &Ident, ultimate: &Ident) -> Option<&Answer>
        ensures found { option_map (λ a. a.now) result ≡ party.answer_with (record { requester = requester.now; ultimate = ultimate.now }) self.now }
        ensures in_range { IfSome result (λ a. IsCentreAnswer a.now) }
    {
        let parts: &Parts = &self.parts;
        parts.answers.find(&AnswerKey {
            requester: *requester,
            ultimate: *ultimate,
        })
    }

    /// The first link with that peer on that side that is ready and isn't one with a centre.
    pub fn first_link(&self, peer: &Ident, side: Side) -> Option<&LinkRec>
        ensures found { option_map (λ l. l.now) result ≡ party.first_link peer.now side self.now }
        ensures in_range { IfSome result (λ l. IsLink l.now) }
    {
        let parts: &Parts = &self.parts;
        parts.links.law_rows();
        first_usable(&parts.links, peer, side)
    }

    /// Whether a link names that peer.
    pub fn knows(&self, peer: &Ident) -> bool
        ensures { result ≡ party.knows peer.now self.now }
    {
        let parts: &Parts = &self.parts;
        parts.links.rows().any(|link| *peer == link.peer)
    }

    /// Whether a link has that pair.
    pub fn has_pair(&self, pair: Pair) -> bool
        ensures { result ≡ party.has_pair pair self.now }
    {
        let parts: &Parts = &self.parts;
        parts.links.rows().any(|link| are_same(&pair, &link.pair))
    }

    /// Whether the peer expands as the party's own identity does, or as that of a link's peer with
    /// another identity.
    pub fn aliases(&self, peer: &Ident) -> bool
        ensures { result ≡ party.aliases peer.now self.now }
    {
        let parts: &Parts = &self.parts;
        expand_alike(peer, &parts.own) || names_alias(&parts.links, peer)
    }

    /// How many links there are.
    pub fn link_count(&self) -> usize
        ensures { result ≡ length self.now.links }
    {
        let parts: &Parts = &self.parts;
        parts.links.len()
    }

    /// How many key records there are.
    pub fn key_count(&self) -> usize
        ensures { result ≡ length self.now.keys }
    {
        let parts: &Parts = &self.parts;
        parts.keys.len()
    }

    /// How many exchanges there are.
    pub fn exchange_count(&self) -> usize
        ensures { result ≡ length self.now.exchanges }
    {
        let parts: &Parts = &self.parts;
        parts.exchanges.len()
    }

    /// How many answers there are.
    pub fn answer_count(&self) -> usize
        ensures { result ≡ length self.now.answers }
    {
        let parts: &Parts = &self.parts;
        parts.answers.len()
    }

    /// Link `i`, from 0, and `None` exactly where there is no such link.
    pub fn link_at(&self, i: usize) -> Option<&LinkRec>
        ensures found { option_map (λ l. l.now) result ≡ slice_get self.now.links i }
        ensures in_range { IfSome result (λ l. IsLink l.now) }
    {
        let parts: &Parts = &self.parts;
        parts.links.at(i)
    }

    /// Key record `i`, from 0, and `None` exactly where there is no such record.
    pub fn key_at(&self, i: usize) -> Option<&KeyRec>
        ensures found { option_map (λ k. k.now) result ≡ slice_get self.now.keys i }
        ensures in_range { IfSome result (λ k. IsRecord k.now) }
    {
        let parts: &Parts = &self.parts;
        parts.keys.at(i)
    }

    /// Exchange `i`, from 0, and `None` exactly where there is no such exchange.
    pub fn exchange_at(&self, i: usize) -> Option<&Exchange>
        ensures found { option_map (λ e. e.now) result ≡ slice_get self.now.exchanges i }
        ensures in_range { IfSome result (λ e. IsExchange e.now) }
    {
        let parts: &Parts = &self.parts;
        parts.exchanges.at(i)
    }

    /// Answer `i`, from 0, and `None` exactly where there is no such answer.
    pub fn answer_at(&self, i: usize) -> Option<&Answer>
        ensures found { option_map (λ a. a.now) result ≡ slice_get self.now.answers i }
        ensures in_range { IfSome result (λ a. IsCentreAnswer a.now) }
    {
        let parts: &Parts = &self.parts;
        parts.answers.at(i)
    }
}

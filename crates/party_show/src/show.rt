ghost use Rattle.std.specs.Prelude.{◌≡◌, ◌++◌, ◌∷◌, [], codes, map, IfOk, OnOk};
ghost use Rattle.std.specs.List.{concat, flat_map};
ghost use Rattle.std.specs.Fmt.{decimal};
ghost use Rattle.x_base.specs.KeyName.{written as written_name};
ghost use Rattle.party_show.specs.Show.{line, role_word as word_of_role, side_word as word_of_side, ready_word as word_of_ready, status_word as word_of_status, link_line, key_line, exchange_line, answer_line, shown};

use party_state::{Answer, Exchange, KeyRec, KeyStatus, Kind, LinkRec, State};
use std::alloc::Global;
use x_base::{Count, Ident, KeyName, NoMemory, Role, Side, Text};

/// About as many bytes as a line takes.
const ROOM_OF_LINE: usize = 64;

fn role_word(role: &Role) -> &[u8]
    ensures { result.now ≡ word_of_role role.now }
{
    match role {
        Role::Bank => b"BANK",
        Role::Distribution => b"DISTRIBUTION",
        Role::Translation => b"TRANSLATION",
    }
}

fn side_word(side: &Side) -> &[u8]
    ensures { result.now ≡ word_of_side side.now }
{
    match side {
        Side::Sends => b"OUT",
        Side::Takes => b"IN",
    }
}

fn ready_word(ready: &bool) -> &[u8]
    ensures { result.now ≡ word_of_ready ready.now }
{
    if *ready { b"READY" } else { b"PENDING" }
}

fn status_word(status: &KeyStatus) -> &[u8]
    ensures { result.now ≡ word_of_status status.now }
{
    match status {
        KeyStatus::Pending => b"PENDING",
        KeyStatus::Live => b"LIVE",
        KeyStatus::Held => b"HELD",
        KeyStatus::Closing => b"CLOSING",
        KeyStatus::Ended => b"ENDED",
    }
}

fn written(alloc: Global, name: &KeyName) -> Result<Text, NoMemory>
    ensures { IfOk result (λ text. text ≡ written_name name.now) }
{
    let mut text = Text::new(alloc);
    name.write(&mut text)?;
    Ok(text)
}

/// Appends a word behind a blank.
fn push_word(out: &mut Text, word: &[u8]) -> Result<(), NoMemory>
    ensures { OnOk result (out.new ≡ out.old ++ 32 ∷ word.now) }
{
    out.push(b" ")?;
    out.push(word)
}

/// Appends words, each behind a blank.
fn push_words(out: &mut Text, words: &[&[u8]]) -> Result<(), NoMemory>
    ensures { OnOk result (out.new ≡ out.old ++ flat_map (λ w. 32 ∷ w.now) words.now) }
{
    for word in words {
        push_word(out, word)?;
    }
    Ok(())
}

/// Appends a line of a first word and others.
fn push_line(out: &mut Text, first: &[u8], words: &[&[u8]]) -> Result<(), NoMemory>
    ensures { OnOk result (out.new ≡ out.old ++ line (first.now ∷ map (λ w. w.now) words.now)) }
{
    out.push(first)?;
    push_words(out, words)?;
    out.push(b"\n")
}

fn push_link(alloc: Global, out: &mut Text, link: &LinkRec) -> Result<(), NoMemory>
    ensures { OnOk result (out.new ≡ out.old ++ link_line link.now) }
{
    let next = link.next.to_string(alloc)?;
    push_line(
        out,
        b"LINK",
        &[
            link.peer.bytes(),
            link.label.bytes(),
            side_word(&link.side),
            next.as_bytes(),
            ready_word(&link.ready),
        ],
    )
}

fn push_key(alloc: Global, out: &mut Text, key: &KeyRec) -> Result<(), NoMemory>
    ensures { OnOk result (out.new ≡ out.old ++ key_line key.now) }
{
    let name = written(alloc, &key.name)?;
    push_line(
        out,
        b"KEY",
        &[key.peer.bytes(), name.bytes(), status_word(&key.status)],
    )
}

/// Appends the line of an exchange about a key: the peer, what the exchange waits for, and the key's name.
fn push_named(
    alloc: Global,
    out: &mut Text,
    peer: &Ident,
    word: &[u8],
    name: &KeyName,
) -> Result<(), NoMemory>
    ensures { OnOk result (out.new ≡ out.old ++ line (codes "EXCHANGE" ∷ peer.now ∷ word.now ∷ written_name name.now ∷ [])) }
{
    let name = written(alloc, name)?;
    push_line(out, b"EXCHANGE", &[peer.bytes(), word, name.bytes()])
}

fn push_translating(
    alloc: Global,
    out: &mut Text,
    peer: &Ident,
    ultimate: &Ident,
    cta: Count,
) -> Result<(), NoMemory>
    ensures { OnOk result (out.new ≡ out.old ++ line (codes "EXCHANGE" ∷ peer.now ∷ codes "TRANSLATING" ∷ ultimate.now ∷ decimal cta ∷ [])) }
{
    let cta = cta.value().to_string(alloc)?;
    push_line(
        out,
        b"EXCHANGE",
        &[
            peer.bytes(),
            b"TRANSLATING",
            ultimate.bytes(),
            cta.as_bytes(),
        ],
    )
}

fn push_exchange(alloc: Global, out: &mut Text, exchange: &Exchange) -> Result<(), NoMemory>
    ensures { OnOk result (out.new ≡ out.old ++ exchange_line exchange.now) }
{
    let peer = &exchange.peer;
    match &exchange.kind {
        Kind::Asked { ultimate } => push_line(
            out,
            b"EXCHANGE",
            &[peer.bytes(), b"ASKED", ultimate.bytes()],
        ),
        Kind::Translating { ultimate, cta, .. } => {
            push_translating(alloc, out, peer, ultimate, *cta)
        }
        Kind::KeySent { name, .. } => push_named(alloc, out, peer, b"KEYSENT", name),
        Kind::Ending { name } => push_named(alloc, out, peer, b"ENDING", name),
        Kind::PairSent { name } => push_named(alloc, out, peer, b"PAIRSENT", name),
    }
}

fn push_answer(alloc: Global, out: &mut Text, answer: &Answer) -> Result<(), NoMemory>
    ensures { OnOk result (out.new ≡ out.old ++ answer_line answer.now) }
{
    let cta = answer.cta.value().to_string(alloc)?;
    push_line(
        out,
        b"ANSWER",
        &[
            answer.requester.bytes(),
            answer.ultimate.bytes(),
            cta.as_bytes(),
        ],
    )
}

fn push_links(alloc: Global, out: &mut Text, state: &State) -> Result<(), NoMemory>
    ensures { OnOk result (out.new ≡ out.old ++ concat (map link_line state.now.links)) }
{
    for i in 0..state.link_count() {
        if let Some(link) = state.link_at(i) {
            push_link(alloc, out, link)?;
        }
    }
    Ok(())
}

fn push_keys(alloc: Global, out: &mut Text, state: &State) -> Result<(), NoMemory>
    ensures { OnOk result (out.new ≡ out.old ++ concat (map key_line state.now.keys)) }
{
    for i in 0..state.key_count() {
        if let Some(key) = state.key_at(i) {
            push_key(alloc, out, key)?;
        }
    }
    Ok(())
}

fn push_exchanges(alloc: Global, out: &mut Text, state: &State) -> Result<(), NoMemory>
    ensures { OnOk result (out.new ≡ out.old ++ concat (map exchange_line state.now.exchanges)) }
{
    for i in 0..state.exchange_count() {
        if let Some(exchange) = state.exchange_at(i) {
            push_exchange(alloc, out, exchange)?;
        }
    }
    Ok(())
}

fn push_answers(alloc: Global, out: &mut Text, state: &State) -> Result<(), NoMemory>
    ensures { OnOk result (out.new ≡ out.old ++ concat (map answer_line state.now.answers)) }
{
    for i in 0..state.answer_count() {
        if let Some(answer) = state.answer_at(i) {
            push_answer(alloc, out, answer)?;
        }
    }
    Ok(())
}

/// About as many bytes as the lines take in which a party is shown.
fn show_room(state: &State) -> usize {
    state
        .link_count()
        .saturating_add(state.key_count())
        .saturating_add(state.exchange_count())
        .saturating_add(state.answer_count())
        .saturating_add(1)
        .saturating_mul(ROOM_OF_LINE)
}

/// Appends the lines in which a party is shown.
fn push_party(alloc: Global, out: &mut Text, state: &State) -> Result<(), NoMemory>
    ensures { OnOk result (out.new ≡ out.old ++ shown state.now) }
{
    push_line(
        out,
        b"PARTY",
        &[state.own().bytes(), role_word(&state.role())],
    )?;
    push_links(alloc, out, state)?;
    push_keys(alloc, out, state)?;
    push_exchanges(alloc, out, state)?;
    push_answers(alloc, out, state)
}

/// The lines in which a party is shown: the party, its links, keys, exchanges and answers, each
/// list in its order. No key's value is shown.
pub fn show_text(alloc: Global, state: &State) -> Result<Text, NoMemory>
    ensures { IfOk result (λ text. text ≡ shown state.now) }
{
    let mut text = Text::with_capacity(alloc, show_room(state))?;
    push_party(alloc, &mut text, state)?;
    Ok(text)
}

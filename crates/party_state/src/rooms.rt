// How many rows a list of edits puts, table by table.
ghost use Rattle.std.specs.Prelude.{◌≡◌, count_by};
ghost use Rattle.party_state.specs.Rooms.{puts_link, puts_key, puts_exchange, puts_answer};

use crate::edit::Edit;

pub(crate) fn links_put(edits: &[Edit]) -> usize
    ensures { result ≡ count_by puts_link edits.now }
{
    edits
        .iter()
        .filter(|edit| matches!(**edit, Edit::PutLink(_)))
        .count()
}

pub(crate) fn keys_put(edits: &[Edit]) -> usize
    ensures { result ≡ count_by puts_key edits.now }
{
    edits
        .iter()
        .filter(|edit| matches!(**edit, Edit::PutKey(_)))
        .count()
}

pub(crate) fn exchanges_put(edits: &[Edit]) -> usize
    ensures { result ≡ count_by puts_exchange edits.now }
{
    edits
        .iter()
        .filter(|edit| matches!(**edit, Edit::PutExchange(_)))
        .count()
}

pub(crate) fn answers_put(edits: &[Edit]) -> usize
    ensures { result ≡ count_by puts_answer edits.now }
{
    edits
        .iter()
        .filter(|edit| matches!(**edit, Edit::PutAnswer(_)))
        .count()
}

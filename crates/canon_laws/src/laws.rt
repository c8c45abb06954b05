// What is promised of every canonical text.
ghost use Rattle.canon_laws.specs.Laws.{AuthSays, CanonReadsBack, CanonRewrites};

use csm_read::{law_one_answer, law_one_meaning, law_read_says, law_written_read};

/// The canonical text of a writable message is read as this message, whatever follows.
pub fn law_canon_reads_back()
    ensures { CanonReadsBack }
{
    law_written_read();
}

/// What is read of the canonical text of a writable message has the same canonical text.
pub fn law_canon_rewrites()
    ensures { CanonRewrites }
{
    law_one_answer();
    law_canon_reads_back();
}

/// The authenticated text of a writable message says this message and no other.
pub fn law_auth_says()
    ensures { AuthSays }
{
    law_canon_reads_back();
    law_read_says();
    law_one_meaning();
}

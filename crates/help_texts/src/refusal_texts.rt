// What help tells of each refusal, behind its line.

/// The words about a refusal: when it comes, and what to do.
pub(crate) fn refusal_text(number: u64) -> &'static str {
    match number {
        4 => {
            "
Sixteen drawn keys running were weak.
What to do: run it again; where it stays, the generator's pair is unfit: set up another party.
"
        }
        5 => {
            "
No message: nothing, or other bytes than CSM(.
What to do: ask for it again.
"
        }
        6 => {
            "
More than 1,024 bytes without an end.
What to do: not a message of this profile.
"
        }
        7 => {
            "
The input ends before the message does.
What to do: ask for the whole message.
"
        }
        8 | 9 | 10 | 11 | 12 | 13 | 14 => {
            "
8: a token without a tag; 9: an unknown tag; 10: one too often; 11: one missing; 12: one that
the class doesn't have; 13: contents that aren't its own; 14: an unsupported one.
What to do: malformed, or of another profile: ask the sender.
"
        }
        15 => {
            "
The journal is full; at compact, and at migrate of a file of format 1, too large a party for one
record, which these commands never make.
What to do: \"A full journal\".
"
        }
        18 => {
            "
init, create, replay: the file has a party, or is damaged.
What to do: another identity, or another folder.
"
        }
        19 => {
            "
64 links stand.
What to do: links can't be removed: set up another party.
"
        }
        20 => {
            "
1,024 key records stand.
What to do: end keys that aren't used, and purge.
"
        }
        21 => {
            "
The message, or the payment, is for another party (RCV, TO), or from this one (ORG, FROM).
What to do: hand it to the party of RCV or TO.
"
        }
        22 => {
            "
No link names the peer, or a KSM's centre.
What to do: load the key-encrypting key that both share.
"
        }
        23 => {
            "
A class, service or command that this party doesn't serve; an ultimate recipient who asks, or is
the centre; at a centre a label other than C.
What to do: ask whom it is for.
"
        }
        24 => {
            "
No exchange with the peer, or none that the message answers.
What to do: nothing: a late or repeated answer.
"
        }
        25 => {
            "
An exchange with the peer, or the ultimate recipient, waits for its answer.
What to do: wait, or resend, or drop and begin again.
"
        }
        26 => {
            "
No link with the peer, or the ultimate recipient, at that side or with that label.
What to do: load one.
"
        }
        27 => {
            "
No record of that key; at end also a PENDING or ENDED one; at pay and accept one that is neither
LIVE nor HELD.
What to do: show tells the names; \"A key whose record is gone\".
"
        }
        28 => {
            "
The authentication code isn't made under the key.
What to do: the text was changed, answers an earlier exchange, or the two ends loaded different
keys.
"
        }
        29 => {
            "
The error detection code isn't that of the text.
What to do: damaged on its way: ask for it again.
"
        }
        30 => {
            "
The count is below the expected one, E: a repeat, or overtaken.
What to do: send the ESM that was written; at an RTR drop and ask again.
"
        }
        31 => {
            "
The link has no count left; at pay and accept, the ledger has no number left under this key.
What to do: another key-encrypting key under another label; another data key.
"
        }
        32 => {
            "
A link with that peer, label and side stands; for a new key-encrypting key, also label C.
What to do: another label.
"
        }
        33 => {
            "
A link has that key; at an RTR, a record of it stands.
What to do: agree on another: a key-encrypting key is loaded once.
"
        }
        34 => {
            "
load, enter: the peer's identity, repeated to sixteen letters, is another known party's, or this
one's.
What to do: another identity.
"
        }
        37 => {
            "
No such party in the current folder; at outbox, no such spool.
What to do: create or init, or the right folder or name.
"
        }
        38 => {
            "
A byte behind the message, or more than 2,048 bytes in all; at batch, more than 1,048,576.
What to do: hand in one message at a time; cut the input of batch between two messages.
"
        }
        40 => {
            "
spool: the spool's file holds another batch.
What to do: a new spool for a new batch.
"
        }
        41 => {
            "
spool: the party was commanded between two runs of the batch, and isn't where the spool says.
What to do: \"Batches\"; the same batch under a new spool is taken again.
"
        }
        42 => {
            "
The file under the name of --party is another party's: it was copied or renamed; or the files of
--party and --mirror are two parties'.
What to do: show tells whose it is: give it that party's name, and never use a copy beside it.
show, value, compact, migrate and wipe serve it under either name.
"
        }
        43 => {
            "
audit: the outcome of the stopped event P is N, but the event changes nothing.
What to do: docs/NETWORK.md, \"How an auditor works\".
"
        }
        44 => {
            "
audit: the stopped event P has no letter; or there are more letters than stopped events, and P
is the number behind the last event.
What to do: the same.
"
        }
        45 => {
            "
audit: the transcript isn't that of the scenario; line P is the first that differs, or in which
one of them ends.
What to do: the same.
"
        }
        46 => {
            "
accept: the input isn't a payment; it is one no longer at P.
What to do: ask for the whole text.
"
        }
        47 => {
            "
accept: the payment's number isn't above the last one that was taken under this key from this
peer; the next is E.
What to do: a repeat, or overtaken: it isn't taken (\"Payments\").
"
        }
        48 => {
            "
pay, accept: the ledger has 4,096 entries, and one more is wanted.
What to do: another ledger, under another key.
"
        }
        49 => {
            "
outbox: so many messages of the batch have no answer yet.
What to do: the same spool with the same batch again; where that answers 41, see there.
"
        }
        50 => {
            "
compare: the two files don't stand for one party in one state.
What to do: by the line that it wrote: \"Two disks\".
"
        }
        51 => {
            "
create, enter: line P of the input isn't a component: a wrong number of digits, or another one
than the first line's, another sign, no line feed at its end, or a fourth line.
What to do: enter the components again.
"
        }
        _ => "
No refusal has this number.
",
    }
}

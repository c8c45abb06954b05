// What help tells of each command, behind its line.
use x_line::OrderKind;

/// The words about a command: what it does, reads and writes, its exit codes, an example.
pub(crate) fn command_text(kind: OrderKind) -> &'static str {
    match kind {
        OrderKind::Check => {
            "
Reads a message; knows no party and no key.
Reads: a message. Writes: the canonical text.
Exit: 0 done, 1 refused, 2 a faulty command line, 3 input not read, 4 output not written, 9 no
memory.
Example: x917 check < message.csm
"
        }
        OrderKind::Replay => {
            "
Sets the parties of a scenario up in the current folder and plays it, never beside parties in
use (docs/NETWORK.md).
Reads: a scenario. Writes: the transcript.
Exit: 0 done, 1 refused, 2 a faulty command line, 3 input not read, 4 output not written, 5 a
fault of the disk, 6 a damaged file, 7 a bad line, 8 a forged event, 9 no memory.
Example: x917 replay < network.scenario
"
        }
        OrderKind::Audit => {
            "
Reads a scenario, the outcomes of its stopped events and a transcript, and tells whether it is
the transcript of that run; looks at no file (docs/NETWORK.md, \"How an auditor works\").
Reads: a scenario, outcomes and a transcript. Writes: a summary.
Exit: 0 done, 1 refused, 2 a faulty command line, 3 input not read, 4 output not written, 7 a
bad line, 8 a forged event, 9 no memory.
Example: x917 audit < run
"
        }
        OrderKind::Batch => {
            "
Makes a batch of the messages of its input, each to arrive at the present moment (\"Batches\");
looks at no file.
Reads: messages. Writes: the batch.
Exit: 0 done, 1 refused, 2 a faulty command line, 3 input not read, 4 output not written, 9 no
memory.
Example: x917 batch < messages
"
        }
        OrderKind::Init => {
            "
Sets a party up: its role (bank, distribution, translation), its generator's pair of keys and
seed.
Reads: nothing. Writes: nothing.
Exit: 0 done, 1 refused, 2 a faulty command line, 5 a fault of the disk, 9 no memory.
Example: x917 init --party BANKA --role bank --genkey \"$PAIR\" --genseed \"$SEED\"
"
        }
        OrderKind::Create => {
            "
Sets a party up as init does, with its generator from standard input: one to three lines, each
of 32 digits for the pair, a blank and 16 digits for the seed, joined by exclusive or.
Reads: digits. Writes: the check value of the pair.
Exit: 0 done, 1 refused, 2 a faulty command line, 3 input not read, 4 output not written, 5 a
fault of the disk, 9 no memory.
Example: x917 create --party BANKA --role bank < generator
"
        }
        OrderKind::Load => {
            "
Loads a key-encrypting key shared with a peer: --side out at the party that sends under it, in
at the one that receives. Between a bank and a centre the label is C: a distribution centre
sends to each bank; to a translation centre the bank that asks sends, and the centre to the
ultimate recipient.
Reads: nothing. Writes: nothing.
Exit: 0 done, 1 refused, 2 a faulty command line, 5 a fault of the disk, 6 a damaged file, 9 no
memory.
Example: x917 load --party BANKA --peer BANKB --label K1 --side out --key \"$KEY\"
"
        }
        OrderKind::Enter => {
            "
Loads a key-encrypting key as load does, with its digits from standard input: one to three lines,
all of 32 digits, or all of 16 for a single key, joined by exclusive or.
Reads: digits. Writes: the check value of the key.
Exit: 0 done, 1 refused, 2 a faulty command line, 3 input not read, 4 output not written, 5 a
fault of the disk, 6 a damaged file, 9 no memory.
Example: x917 enter --party BANKA --peer BANKB --label K1 --side out < components
"
        }
        OrderKind::Start => {
            "
Draws a data key for the peer, under the key-encrypting key with that label or the first one.
Reads: nothing. Writes: KSM.
Exit: 0 done, 1 refused, 2 a faulty command line, 4 output not written, 5 a fault of the disk, 6
a damaged file, 9 no memory.
Example: x917 start --party BANKA --peer BANKB > message.csm
"
        }
        OrderKind::StartKk => {
            "
Draws a new key-encrypting key, labelled as --new says, and a data key under it; the new one
goes under that of --label or the first one. --single: both halves are one key.
Reads: nothing. Writes: KSM.
Exit: 0 done, 1 refused, 2 a faulty command line, 4 output not written, 5 a fault of the disk, 6
a damaged file, 9 no memory.
Example: x917 startkk --party BANKA --peer BANKB --new K2 > message.csm
"
        }
        OrderKind::Ask => {
            "
Asks the peer for a data key, and changes nothing; with --ultimate, asks it as a distribution
centre for a key shared with that party.
Reads: nothing. Writes: RSI.
Exit: 0 done, 1 refused, 2 a faulty command line, 4 output not written, 5 a fault of the disk, 6
a damaged file, 9 no memory.
Example: x917 ask --party BANKA --peer CKDX --ultimate BANKB > message.csm
"
        }
        OrderKind::Translate => {
            "
Draws a data key, and asks the peer, a translation centre, to encrypt it for the ultimate
recipient.
Reads: nothing. Writes: RFS.
Exit: 0 done, 1 refused, 2 a faulty command line, 4 output not written, 5 a fault of the disk, 6
a damaged file, 9 no memory.
Example: x917 translate --party BANKA --peer CKTX --ultimate BANKB > message.csm
"
        }
        OrderKind::Take => {
            "
Reads a message and tells the party; with --tell, a line on standard error says what was
accepted.
Reads: a message. Writes: the answer, where the message has one.
Exit: 0 done, 1 refused, 2 a faulty command line, 3 input not read, 4 output not written, 5 a
fault of the disk, 6 a damaged file, 9 no memory.
Example: x917 take --party BANKA < message.csm
"
        }
        OrderKind::Purge => {
            "
Removes the records of ended keys.
Reads: nothing. Writes: nothing.
Exit: 0 done, 1 refused, 2 a faulty command line, 5 a fault of the disk, 6 a damaged file, 9 no
memory.
Example: x917 purge --party BANKA
"
        }
        OrderKind::Show => {
            "
Shows the party, but no key.
Reads: nothing. Writes: the show lines.
Exit: 0 done, 1 refused, 2 a faulty command line, 4 output not written, 5 a fault of the disk, 6
a damaged file, 9 no memory.
Example: x917 show --party BANKA
"
        }
        OrderKind::Value => {
            "
Shows the check value of a loaded key-encrypting key: the first six digits of eight zero bytes
encrypted under it.
Reads: nothing. Writes: the check value.
Exit: 0 done, 1 refused, 2 a faulty command line, 4 output not written, 5 a fault of the disk, 6
a damaged file, 9 no memory.
Example: x917 value --party BANKA --peer BANKB --label K1 --side out
"
        }
        OrderKind::Compact => {
            "
Makes room in the file (\"A full journal\").
Reads: nothing. Writes: nothing.
Exit: 0 done, 1 refused, 2 a faulty command line, 5 a fault of the disk, 6 a damaged file, 9 no
memory.
Example: x917 compact --party BANKA
"
        }
        OrderKind::Migrate => {
            "
Writes the party anew in format 2, in which each record has an error detection code, where its
file is in format 1; changes nothing in a file of format 2 (\"A file of format 1\").
Reads: nothing. Writes: nothing.
Exit: 0 done, 1 refused, 2 a faulty command line, 5 a fault of the disk, 6 a damaged file, 9 no
memory.
Example: x917 migrate --party BANKA
"
        }
        OrderKind::Wipe => {
            "
Overwrites with zeros what no longer counts of the file (\"A key that has to be gone\").
Reads: nothing. Writes: nothing.
Exit: 0 done, 1 refused, 2 a faulty command line, 5 a fault of the disk, 6 a damaged file, 9 no
memory.
Example: x917 wipe --party BANKA
"
        }
        OrderKind::Compare => {
            "
Tells whether the two files of a party stand for one state, or which is ahead; changes neither
(\"Two disks\").
Reads: nothing. Writes: a line.
Exit: 0 done, 1 refused, 2 a faulty command line, 4 output not written, 5 a fault of the disk, 9
no memory.
Example: x917 compare --party BANKA --mirror MIRA
"
        }
        OrderKind::Resend => {
            "
Writes the text of the exchange with the peer again; changes nothing.
Reads: nothing. Writes: the same bytes.
Exit: 0 done, 1 refused, 2 a faulty command line, 4 output not written, 5 a fault of the disk, 6
a damaged file, 9 no memory.
Example: x917 resend --party BANKA --peer BANKB > message.csm
"
        }
        OrderKind::Drop => {
            "
Gives the exchange with the peer up: a key that was sent is ENDED, a new key-encrypting key sent
with it gone; a key that was being closed stays CLOSING.
Reads: nothing. Writes: nothing.
Exit: 0 done, 1 refused, 2 a faulty command line, 5 a fault of the disk, 6 a damaged file, 9 no
memory.
Example: x917 drop --party BANKA --peer BANKB
"
        }
        OrderKind::End => {
            "
Discontinues a data key that is LIVE, HELD or CLOSING.
Reads: nothing. Writes: DSM.
Exit: 0 done, 1 refused, 2 a faulty command line, 4 output not written, 5 a fault of the disk, 6
a damaged file, 9 no memory.
Example: x917 end --party BANKA --peer BANKB --name BANKA.BANKA.K1.1 > message.csm
"
        }
        OrderKind::Pay => {
            "
Pays an amount to the peer under a data key that is LIVE or HELD; its number is kept in the
ledger, a file of its own (\"Payments\").
Reads: nothing. Writes: the payment.
Exit: 0 done, 1 refused, 2 a faulty command line, 4 output not written, 5 a fault of the disk, 6
a damaged file, 9 no memory.
Example: x917 pay --party BANKA --peer BANKB --name BANKA.BANKA.K1.1 --ledger LEDA --amount 2500 > payment
"
        }
        OrderKind::Accept => {
            "
Reads a payment, verifies it, and keeps its number in the ledger.
Reads: a payment. Writes: a line PAID.
Exit: 0 done, 1 refused, 2 a faulty command line, 3 input not read, 4 output not written, 5 a
fault of the disk, 6 a damaged file, 9 no memory.
Example: x917 accept --party BANKB --ledger LEDB < payment
"
        }
        OrderKind::Spool => {
            "
Takes the messages of a batch one by one, each once, however often it is called; keeps what was
decided in the spool, a file of its own.
Reads: a batch. Writes: the outbox.
Exit: 0 done, 1 refused, 2 a faulty command line, 3 input not read, 4 output not written, 5 a
fault of the disk, 6 a damaged file, 7 a bad line, 9 no memory.
Example: x917 spool --party BANKA --spool SPOOLA < batch
"
        }
        OrderKind::Outbox => {
            "
Writes the outbox of a spool as far as it is; changes nothing.
Reads: nothing. Writes: the outbox.
Exit: 0 done, 1 refused, 2 a faulty command line, 4 output not written, 5 a fault of the disk, 6
a damaged file, 9 no memory.
Example: x917 outbox --spool SPOOLA
"
        }
        OrderKind::Drill => {
            "
Makes a scenario of the seed and plays it in memory; looks at no file.
Reads: nothing. Writes: a summary.
Exit: 0 done, 2 a faulty command line, 4 output not written, 8 a forged event, 9 no memory.
Example: x917 drill --seed 7 --events 100
"
        }
    }
}

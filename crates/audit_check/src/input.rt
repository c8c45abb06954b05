// The auditor's input is read.
ghost use Rattle.std.specs.Prelude.{◌≡◌, ◌⊎◌, ◌+◌, ℕ, List, length, true, Err, IfOk, IfErr, IfSome, IfNone};
ghost use Rattle.std.specs.List.{All};
ghost use Rattle.scenario.specs.Rows.{rows_of};
ghost use Rattle.audit_check.specs.Audits.{IsLetter};
ghost use Rattle.audit_check.specs.Inputs.{IsAuditLine, IsFound, IsInputReading, IsOnlyReading, IsOther, Writes, begins_audit};

use crate::comparison::line_feeds;
use scenario::{
    Scenario, ScenarioFault, first_row, law_never_both, law_one_first_bad, law_one_scenario,
};
use std::alloc::Global;
use std::marker::Model;

/// How many bytes an input has at most.
const MOST_BYTES: usize = 67_108_864;

/// How many letters a line has at most.
const MOST_LETTERS: usize = 65_536;

/// What an auditor is given: a scenario, the letters of its stopped events, and a transcript.
#[derive(Drop)]
pub struct AuditInput<'a> {
    scenario: Scenario,
    letters: &'a [u8],
    transcript: &'a [u8],
}

impl<'a> Model for AuditInput<'a> {
    ghost use Rattle.std.specs.List.{All};
    ghost use Rattle.audit_check.specs.Audits.{IsLetter};
    ghost use Rattle.audit_check.specs.Parts.{Parts};

    ghost Value = { Parts };

    ghost view = { λ i. record { lines = i.scenario; letters = i.letters.now; transcript = i.transcript.now } };

    ghost invariant = { λ i. All IsLetter i.letters.now };
}

impl<'a> AuditInput<'a> {
    pub fn scenario(&self) -> &Scenario
        ensures { result.now ≡ self.now.lines }
    {
        &self.scenario
    }

    /// Each is `O` or `N`.
    pub fn letters(&self) -> &[u8]
        ensures value { result.now ≡ self.now.letters }
        ensures letters { All IsLetter result.now }
    {
        self.letters
    }

    pub fn transcript(&self) -> &[u8]
        ensures { result.now ≡ self.now.transcript }
    {
        self.transcript
    }
}

/// The line with the letters: how many lines stand in front of it, and where it begins and ends among the bytes, with its
/// line feed.
#[derive(Drop)]
struct AuditLine<'a> {
    line: &'a [u8],
    lines: usize,
    start: usize,
    end: usize,
}

fn begins_audit(line: &[u8]) -> bool
    ensures { result ≡ begins_audit line.now }
{
    let (front, _) = line.split_at(line.len().min(6));
    front == b"AUDIT ".as_slice()
}

fn is_letter(letter: u8) -> bool
    ensures yes { result ≡ true → IsLetter letter }
    ensures no { IsLetter letter → result ≡ true }
{
    letter == b'O' || letter == b'N'
}

fn are_letters(word: &[u8]) -> bool
    ensures yes { result ≡ true → All IsLetter word.now }
    ensures no { All IsLetter word.now → result ≡ true }
{
    for letter in word {
        if !is_letter(*letter) {
            return false;
        }
    }
    true
}

/// The letters that a word writes.
fn letters_of(word: &[u8]) -> Option<&[u8]>
    ensures some { IfSome result (λ letters. Writes word.now letters.now) }
    ensures letters { IfSome result (λ letters. All IsLetter letters.now) }
    ensures none { IfNone result ((letters : List ℕ) → Writes word.now letters → ⊥) }
{
    if word == b"-".as_slice() {
        return Some(&[]);
    }
    if word.is_empty() || word.len() > MOST_LETTERS || !are_letters(word) {
        return None;
    }
    Some(word)
}

/// The letters of a line that begins with `AUDIT `.
fn letters_in(line: &[u8]) -> Option<&[u8]>
    requires { begins_audit line.now ≡ true }
    ensures some { IfSome result (λ letters. IsAuditLine line.now letters.now) }
    ensures letters { IfSome result (λ letters. All IsLetter letters.now) }
    ensures none { IfNone result ((letters : List ℕ) → IsAuditLine line.now letters → ⊥) }
{
    letters_of(&line[6..])
}

/// The first line that begins with `AUDIT `; or how many lines there are, where none does.
fn audit_line(bytes: &[u8]) -> Result<AuditLine, usize>
    ensures found { IfOk result (λ l. IsFound bytes.now l.line.now l.lines l.start l.end) }
    ensures none { IfErr result (λ lines. All IsOther (rows_of bytes.now) × (lines ≡ length (rows_of bytes.now))) }
{
    let mut lines = 0;
    let mut rest = bytes;
    'finding: while !rest.is_empty() {
        let (line, _, behind) = first_row(rest);
        if begins_audit(line) {
            return Ok(AuditLine {
                line,
                lines,
                start: bytes.len() - rest.len(),
                end: bytes.len() - behind.len(),
            });
        }
        lines += 1;
        rest = behind;
    }
    Err(lines)
}

/// The line behind so many is bad; no memory can hold so many that its number wouldn't be told.
fn bad_behind(lines: usize) -> ScenarioFault
    ensures { (result ≡ ScenarioFault.BadLine (lines + 1)) ⊎ (result ≡ ScenarioFault.NoMemory) }
{
    match u32::try_from(lines) {
        Ok(lines) if lines < u32::MAX => ScenarioFault::BadLine(lines + 1),
        _ => ScenarioFault::NoMemory,
    }
}

/// The parts of an input, or its first bad line.
fn read_parts(alloc: Global, bytes: &[u8]) -> Result<AuditInput, ScenarioFault>
    ensures { IsInputReading bytes.now result }
{
    let found = match audit_line(bytes) {
        Ok(found) => found,
        Err(lines) => {
            return match scenario::read(alloc, bytes) {
                Ok(_) => Err(bad_behind(lines)),
                Err(fault) => Err(fault),
            };
        }
    };
    let scenario = match scenario::read(alloc, &bytes[..found.start]) {
        Ok(scenario) => scenario,
        Err(fault) => return Err(fault),
    };
    let Some(letters) = letters_in(found.line) else {
        return Err(bad_behind(found.lines));
    };
    if bytes.len() > MOST_BYTES {
        let (front, _) = bytes.split_at(MOST_BYTES.min(bytes.len()));
        return Err(bad_behind(line_feeds(front)));
    }
    Ok(AuditInput {
        scenario,
        letters,
        transcript: &bytes[found.end..],
    })
}

/// Reads an input: the scenario is all lines before the first that begins with `AUDIT `, and the transcript is what stands
/// behind that line; or tells the first bad line. At most 67,108,864 bytes are an input.
pub fn read_audit(alloc: Global, bytes: &[u8]) -> Result<AuditInput, ScenarioFault>
    ensures reading { IsInputReading bytes.now result }
    ensures only { IsOnlyReading bytes.now result }
{
    law_never_both();
    law_one_first_bad();
    law_one_scenario();
    read_parts(alloc, bytes)
}

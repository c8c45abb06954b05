// What the types of the parts of a scenario's lines fix, told by calls that do nothing.
ghost use Rattle.x_base.specs.Names.{IsIdent, IsLabel};
ghost use Rattle.party_tables.specs.Ranges.{IsPair};
ghost use Rattle.course.specs.Starts.{IsLineInRange, AreLinesInRange};

use scenario::Line;
use x_base::{Ident, Label};
use x_mac::Pair;

fn law_ident(ident: &Ident)
    ensures { IsIdent ident.now }
{
    ident.bytes();
}

fn law_label(label: &Label)
    ensures { IsLabel label.now }
{
    label.bytes();
}

fn law_pair(pair: &Pair)
    ensures { IsPair pair.now }
{
    let _left = pair.left;
    let _right = pair.right;
}

fn law_line(line: &Line)
    ensures { IsLineInRange line.now }
{
    match line {
        Line::Party { name, pair, v, .. } => {
            law_ident(name);
            law_pair(pair);
            let _v = *v;
        }
        Line::Link {
            origin,
            recipient,
            label,
            pair,
        } => {
            law_ident(origin);
            law_ident(recipient);
            law_label(label);
            law_pair(pair);
        }
        Line::Time { .. }
        | Line::Start { .. }
        | Line::StartKk { .. }
        | Line::Ask { .. }
        | Line::Translate { .. }
        | Line::Resend { .. }
        | Line::End { .. }
        | Line::Drop { .. }
        | Line::Purge { .. }
        | Line::Pass { .. }
        | Line::Recent { .. }
        | Line::Bytes { .. }
        | Line::Stop { .. } => (),
    }
}

/// Each line is in its range.
pub fn law_lines(lines: &[Line])
    ensures { AreLinesInRange lines.now }
{
    for line in lines {
        law_line(line);
    }
}

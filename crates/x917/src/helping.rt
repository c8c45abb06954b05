// Words that are no order: help is written where they ask for it.
ghost use Rattle.std.specs.Prelude.{◌≡◌, ℕ, Some, None};
ghost use Rattle.help_texts.specs.declared.asking.Topic.{Topic as TheTopic};
ghost use Rattle.help_texts.specs.Topics.{topic_of};
ghost use Rattle.x_line.specs.declared.usage.UsageKind.{UsageKind as Kind};
ghost use Rattle.call_ends.specs.Causes.{HasFaults};
ghost use Rattle.x917.specs.Helped.{IsHelp};

use call_ends::{Status, put_text};
use help_texts::{Topic, asked, help_text};
use std::alloc::Global;
use x_base::{Sink, Words};
use x_line::UsageKind;

/// Writes the text of a topic.
fn help<K: Sink>(alloc: Global, topic: Topic, sink: &mut K) -> Status
    ensures help { IsHelp topic result (K.written sink.old) (K.written sink.new) }
    ensures usage { (kind : Kind) → result ≡ Status.Usage kind → ⊥ }
    ensures faults { (read disk : ℕ) → HasFaults result read read (K.faults sink.old) (K.faults sink.new) disk disk }
{
    match help_text(alloc, topic) {
        Ok(text) => put_text(sink, Some(text), b"", Status::Done),
        Err(_) => Status::NoMemory,
    }
}

/// Help, where the words ask for it; otherwise what is wrong with them is the status.
pub fn help_or_fault<K: Sink>(alloc: Global, words: &Words, kind: UsageKind, sink: &mut K) -> Status
    ensures helps { (topic : TheTopic) → topic_of words.now ≡ Some topic → IsHelp topic result (K.written sink.old) (K.written sink.new) }
    ensures wrong { topic_of words.now ≡ None → (result ≡ Status.Usage kind) × (sink.new ≡ sink.old) }
    ensures usage { (told : Kind) → result ≡ Status.Usage told → (told ≡ kind) × (topic_of words.now ≡ None) }
    ensures faults { (read disk : ℕ) → HasFaults result read read (K.faults sink.old) (K.faults sink.new) disk disk }
{
    match asked(words) {
        Some(topic) => help(alloc, topic, sink),
        None => Status::Usage(kind),
    }
}

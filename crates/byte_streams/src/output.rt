// Writing all of a text.
ghost use Rattle.std.specs.Prelude.{◌≡◌, OnOk, IsErrOf};
ghost use Rattle.byte_streams.specs.Common.{Rose};
ghost use Rattle.byte_streams.specs.Kept.{KeepsSink};
ghost use Rattle.byte_streams.specs.Streams.{Gains, GainsFront};

use crate::{Sink, SinkFault};

#[tactic(auto, using(crate::proofs::StreamsLemmas::writing))]
/// Appends all of a text, or a front of it where the answer is an error.
pub fn write_all<K: Sink>(sink: &mut K, text: &[u8]) -> Result<(), SinkFault>
    ensures all { OnOk result (Gains (K.held sink.old) (K.held sink.new) text.now) }
    ensures front { GainsFront (K.held sink.old) (K.held sink.new) text.now }
    ensures fault { IsErrOf result SinkFault.Fault → Rose (K.faults sink.old) (K.faults sink.new) }
    ensures still { OnOk result (K.faults sink.new ≡ K.faults sink.old) }
    ensures kept { KeepsSink K.held K.faults K.steady sink.old sink.new }
{
    let mut done = 0;
    while done < text.len() {
        done += sink.write(&text[done..])?;
    }
    Ok(())
}

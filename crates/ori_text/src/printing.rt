// Text out.
ghost use Rattle.std.specs.Prelude.{OnOk, OnErr};
ghost use Rattle.ori_volume.specs.Causes.{HasCause};
ghost use Rattle.ori_volume.specs.Streams.{Gave};
ghost use Rattle.ori_text.specs.Printing.{GavePart};

use ori_volume::{Failed, Sink};

/// Gives a text to a sink, all of it. After `Failed` the sink has taken a part from its front.
pub fn print<K: Sink>(sink: &mut K, text: &str) -> Result<(), Failed>
    ensures ok { OnOk result (Gave (K.taken sink.old) (K.taken sink.new) text.now) }
    ensures err { OnErr result (GavePart (K.taken sink.old) (K.taken sink.new) text.now) }
    ensures cause { HasCause (K.faults sink.old) (K.faults sink.new) result }
{
    let bytes = text.as_bytes();
    let mut done = 0usize;
    while done < bytes.len() {
        match sink.write(&bytes[done..]) {
            Ok(count) => done += count,
            Err(failed) => return Err(failed),
        }
    }
    Ok(())
}

// The listing of a pass file: its frames from the end on, to the file's start or to the first fault.
ghost use Rattle.std.specs.Prelude.{◌≡◌, ℕ, ◌+◌, ◌≤◌, List, ◌++◌, length, IfOk, string_bytes, nat_lt};
ghost use Rattle.pass.specs.Layout.{Parts, EndToEnd};
ghost use Rattle.pass.specs.Walking.{start};
ghost use Rattle.listing.specs.Lines.{ending_text};
ghost use Rattle.listing.specs.Listing.{input_max, line, lines, listing as listed, Lists, frame_lines};

use crate::line::{Line, Stopped};
use pass::walk::Walk;
use std::alloc::{AllocError, Global};
use wire::fault::ListFault;

// The longest input that is listed, in bytes.
pub const INPUT_MAX: usize = 65536;

// Writes a line for each frame, and answers their count, or what ended the walk. Writing fails for want of memory only.
fn list_frames(text: &mut String, file: &[u8]) -> Result<Result<usize, Stopped>, AllocError>
    ensures bytes { IfOk result (λ e. string_bytes text.new ++ line (ending_text e) ≡ string_bytes text.old ++ lines (length file.now + 1) (start file.now)) }
    ensures walks { IfOk result (λ e. (more : List ℕ) × (string_bytes text.new ≡ string_bytes text.old ++ more) × Lists file.now (more ++ line (ending_text e))) }
{
    let mut walk = Walk::new(file);
    // the label names the loop in its proof
    'walking: loop {
        match walk.next_frame() {
            Ok(Some(frame)) => writeln!(text, "{}", Line(frame))?,
            Ok(None) => return Ok(Ok(walk.count())),
            Err(fault) => return Ok(Err(Stopped {
                fault: fault.into(),
                left: walk.left(),
            })),
        }
    }
}

fn is_too_long(input: &[u8]) -> bool
    ensures { result ≡ nat_lt input_max (length input.now) }
{
    input.len() > INPUT_MAX
}

// A file that is too long is not walked: its listing is the fault alone.
pub fn listing(heap: Global, input: &[u8]) -> Result<String, AllocError>
    ensures value { IfOk result (λ s. string_bytes s ≡ listed input.now) }
    ensures walks { IfOk result (λ s. length input.now ≤ input_max → Lists input.now (string_bytes s)) }
    ensures whole { IfOk result (λ s. (ps : List Parts) → EndToEnd input.now ps → length input.now ≤ input_max → string_bytes s ≡ frame_lines ps) }
{
    let mut text = String::new(heap);
    let ending = if is_too_long(input) {
        Err(Stopped {
            fault: ListFault::InputTooLong,
            left: INPUT_MAX,
        })
    } else {
        list_frames(&mut text, input)?
    };
    match ending {
        Ok(count) => writeln!(text, "end {count}")?,
        Err(stopped) => writeln!(text, "{stopped}")?,
    }
    Ok(text)
}

//! Texts and messages are put into a caller's buffer.
ghost use Rattle.std.specs.Prelude.{◌≡◌, ◌<◌, ◌≤◌, false, length, true};
ghost use Rattle.graphql_ast_calls.specs.Messages.{HasMessage, Holds, text_front};

use crate::status::Status;

/// The longest text at the front of some bytes.
#[tactic(auto, using(crate::proofs::MessageFronts::whole_text, crate::proofs::MessageFronts::front_len))]
fn text_front(bytes: &[u8]) -> &[u8]
    ensures text { result.now ≡ text_front bytes.now }
    ensures len { length result.now ≤ length bytes.now }
{
    match str::from_utf8(bytes) {
        Ok(_) => bytes,
        Err(error) => &bytes[..error.valid_up_to()],
    }
}

/// Puts a message into a buffer, cut on a character to what fits, and tells its whole length.
pub(crate) fn put_message(message: &str, out: &mut [u8], needed: &mut usize)
    ensures { HasMessage out.old out.new needed.new }
{
    *needed = message.len();
    let room = message.len().min(out.len());
    let front = text_front(&message.as_bytes()[..room]);
    out[..front.len()].copy_from_slice(front);
}

/// Puts bytes into a buffer, if all of them fit, and tells how many they are.
pub(crate) fn put_bytes(bytes: &[u8], out: &mut [u8], needed: &mut usize) -> bool
    ensures fits { result ≡ true → Holds out.old out.new needed.new bytes.now }
    ensures count { needed.new ≡ length bytes.now }
    ensures too_long { result ≡ false → length out.old < length bytes.now }
{
    *needed = bytes.len();
    let fits = bytes.len() <= out.len();
    if fits {
        out[..bytes.len()].copy_from_slice(bytes);
    }
    fits
}

/// Tells that memory was refused.
pub(crate) fn put_out_of_memory(out: &mut [u8], needed: &mut usize) -> Status
    ensures status { result ≡ Status.OutOfMemory }
    ensures message { HasMessage out.old out.new needed.new }
{
    put_message("out of memory", out, needed);
    Status::OutOfMemory
}

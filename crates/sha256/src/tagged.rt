// The digest of a tag byte and two short parts, for the crates above: of a leaf 0x00 and its
// item, of a node its height and two digests.
ghost use Rattle.std.specs.Prelude.{◌≡◌, ◌+◌, ◌≤◌, length};
ghost use Rattle.sha256.specs.Answer.{tagged};

use crate::input::Input;

// Internal: the parts have at most 64 bytes together. Two digests, as a node has them, are hashed where
// they stand; else the tag and the parts are put together at the start of a buffer.
pub fn hash_tagged(tag: u8, first: &[u8], second: &[u8]) -> [u8; 32]
    requires { length first.now + length second.now ≤ 64 }
    ensures { result ≡ tagged tag first.now second.now }
{
    if let (Ok(left), Ok(right)) = (first.try_into(), second.try_into()) {
        return Input::Node { tag, left, right }.digest();
    }
    let mut buffer = [tag; 65];
    let middle = 1 + first.len();
    let end = middle + second.len();
    buffer[1..middle].copy_from_slice(first);
    buffer[middle..end].copy_from_slice(second);
    Input::Message(&buffer[..end]).digest()
}

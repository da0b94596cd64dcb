ghost use Rattle.std.specs.Prelude.{◌≡◌, ◌+◌, ◌≤◌, ◌++◌, [], ◌∷◌, length, take};
ghost use Rattle.gt_journal.specs.JournalText.{frame};

// The frame of a body and a closed gate, at the front of the buffer.
#[tactic(auto, unfolding(crate::specs::JournalText::frame))]
pub fn fill(buffer: &mut [u8], body: &[u8])
    requires { length body.now + 9 ≤ length buffer.old }
    ensures same { length buffer.new ≡ length buffer.old }
    ensures front { take (length body.now + 9) buffer.new ≡ frame body.now ++ 0 ∷ [] }
{
    let size = body.len();
    buffer[..8].copy_from_slice(&(size as u64).to_be_bytes());
    buffer[8..8 + size].copy_from_slice(body);
    buffer[8 + size] = 0;
}

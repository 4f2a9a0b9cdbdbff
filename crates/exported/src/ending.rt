// An answer whose numbers end in the words of a set.
ghost use Rattle.std.specs.Prelude.{◌≡◌, ◌++◌, ◌+◌, length};

// The numbers of a listing: five, and its last set.
pub const LISTING: usize = 5 + sets::WORDS;

// The numbers of a report, whose edition is one more.
pub const REPORT: usize = 6 + sets::WORDS;

// Puts a head into an answer, and the words of a set behind it.
pub fn put(head: &[u64], last: &[u64], answer: &mut [u64])
    requires { length answer.old ≡ length head.now + length last.now }
    ensures { answer.new ≡ head.now ++ last.now }
{
    let n = head.len();
    answer[..n].copy_from_slice(head);
    answer[n..].copy_from_slice(last);
}

// A line of the reply: a word, a number in decimal and a line feed.
ghost use Rattle.std.specs.Prelude.{◌≡◌, ◌≤◌, length};
ghost use Rattle.hub_record.specs.Reply as spec;

use arrayvec::ArrayString;

// The longest word has 8 bytes, and the longest number 20.
pub fn line(word: &str, n: usize) -> ArrayString<32>
    requires { length word.now ≤ 8 }
    ensures { result.bytes ≡ spec.line word.now n }
{
    let mut digits = itoa::Buffer::new();
    let mut text = ArrayString::new();
    text.push_str(word);
    text.push_str(digits.format(n));
    text.push('\n');
    text
}

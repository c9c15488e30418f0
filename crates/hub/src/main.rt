// The hub program of document 01: a record from standard input, the reply to standard output.
#![tactic(auto)]

// The numbers of standard input and standard output.
const STDIN: i32 = 0;

const STDOUT: i32 = 1;

fn main() {
    // One byte more than a record may have tells that the input is too long.
    let mut buf = [0u8; hub_record::INPUT_LIMIT + 1];
    let n = io::read_full(STDIN, &mut buf);
    let reply = hub_record::reply::reply(&mut buf, n);
    let end = reply.start + reply.count;
    io::write_all(STDOUT, &buf[reply.start..end]);
}

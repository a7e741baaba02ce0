// The sheet runner ("A run on paper"): a table, the line `=` and readings on standard input; the run, or the refusal, on
// standard output. 49,155 bytes of input settle everything (`Bounded` in the crate `meaning`): what comes after them is left.
#![tactic(auto)]

fn main() {
    let mut input = [0u8; 49155];
    let n = io::read_full(0, &mut input);
    let printed_text = call_runner::answer(&input[..n]);
    let length = printed_text.length;
    let bytes = printed_text.bytes;
    io::write_all(1, &bytes[..length]);
}

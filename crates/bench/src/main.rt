// The bench program: a schedule from standard input, its history to standard output. By the crate io and not by std::io, whose errors rest
// on two more of C's functions (errno and strerror_r) that would be assumed here.
#![tactic(auto)]

fn main() {
    // bytes of fixed length, as there is no heap; one more than an input may have, so that a longer one is seen
    let mut input = [0u8; 16385];
    let length = io::read_full(0, &mut input);
    let mut output = [0u8; 131072];
    let end = bench_run::answer(&input[0..length], &mut output);
    io::write_all(1, &output[0..end]);
}

// The listing program: a job from standard input, at most 30,000 bytes, its listing to standard output, and nothing else. A read
// error is the end of the input.
#![tactic(auto)]

ghost use Rattle.labeller.specs.Printed.{Printed};

use listing::TEXT_MOST;

// Standard input and output by their numbers: std's handles for them assume more functions of C than `read` and `write`.
const STDIN_FILENO: i32 = 0;

const STDOUT_FILENO: i32 = 1;

// More than any job has, as `job-most-is` of crate job shows: what follows is not judged.
const INPUT_MOST: usize = 30000;

// Puts the listing of a job into an output that no listing exceeds, so that it is never refused, and gives its length.
fn list(job: &[u8], output: &mut [u8; TEXT_MOST]) -> usize
    ensures { Printed job.now output.new result }
{
    listing::listing(job, output).unwrap()
}

fn main() {
    let mut input = [0u8; INPUT_MOST];
    let got = io::read_full(STDIN_FILENO, &mut input);
    let mut output = [0u8; TEXT_MOST];
    let length = list(&input[..got], &mut output);
    io::write_all(STDOUT_FILENO, &output[..length]);
}

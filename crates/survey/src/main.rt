// The program: frames from standard input, answers to standard output.
#![tactic(auto)]

ghost use Rattle.std.specs.Prelude.{◌≡◌, ◌+◌, ◌<◌, ◌≤◌, length, take};
ghost use Rattle.frames.specs.Fields.{longest_frame};

use frames::Answer;
use serve::{Input, Server};
use std::io::{Print, Read, Stdin, Stdout};
use std::ops::ControlFlow;
use tickets::Tickets;
use words::Limits;

#[derive(Drop)]
struct Buffers {}

impl Buffers {
    const INPUT: usize = 65536;

    // At most so many bytes of answer for a byte of frame.
    const RATIO: usize = 9;

    // Room for every answer, and for the longest behind them: a stream stops where there is less.
    const OUTPUT: usize = Buffers::RATIO * Buffers::INPUT + Answer::LONGEST;
}

// Reads what there is behind the bytes that are kept, which stay; how many came. There is room for one at least, so that
// 0 is the end of the input or a read that failed.
// No plainer as an `Option`: `Read` itself tells the end by 0, and `after_read` takes the number.
fn read_more(mut stdin: Stdin, input: &mut Input) -> usize
    requires { input.old.have < longest_frame }
    ensures room { input.new.have + result ≤ length input.new.buffer.now }
    ensures kept { (input.new.have ≡ input.old.have) × (take input.old.have input.new.buffer.now ≡ take input.old.have input.old.buffer.now) }
    ensures same_length { length input.new.buffer.now ≡ length input.old.buffer.now }
{
    stdin.read(&mut input.buffer[input.have..]).unwrap_or(0)
}

// Turn after turn, to the end of the input or a length field above 62: one read, all that is done after it, one write.
fn serve_all(stdin: Stdin, stdout: Stdout, server: &mut Server)
    requires { server.old.input.have < longest_frame }
{
    // A loop with no measure needs the handle `Wait`, and none is allowed: a read to the end is a count that no run uses up.
    for _ in 0..u64::MAX {
        let input = &mut server.input;
        let got = read_more(stdin, input);
        let turn = server.after_read(got);
        let (ControlFlow::Continue(written) | ControlFlow::Break(written)) = turn;
        // A write that fails is passed over.
        let _ = stdout.write_all(&server.out[..written]);
        if turn.is_break() {
            return;
        }
    }
}

fn main(rt: HostRuntime) {
    let mut book = [0u64; Limits::WORDS];
    let mut buffer = [0u8; Buffers::INPUT];
    let mut out = [0u8; Buffers::OUTPUT];
    let ranks = legs::fixed_ranks();
    let input = Input {
        buffer: &mut buffer,
        have: 0,
    };
    let mut server = Server {
        book: &mut book,
        tickets: Tickets::fresh(),
        ranks: &ranks,
        input,
        out: &mut out,
    };
    serve_all(rt.stdin(), rt.stdout(), &mut server);
}

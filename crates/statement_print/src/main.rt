// The statement of an exercise file, made on a page, and the program that prints it.
#![tactic(auto)]

ghost use Rattle.std.specs.Prelude.{◌≡◌, ◌++◌, ◌≤◌, length, drop, IfOk};
ghost use Rattle.text.specs.Inside.{Written};
ghost use Rattle.exercise.specs.Order.{frame_refusal};
ghost use Rattle.exercise.specs.File.{hour_of};
ghost use Rattle.hour_settle.specs.Inside.{Cleared, Outputs};
ghost use Rattle.statement.specs.Statement.{statement_of};

use statement::Bills;
use std::io::{self, Read, Write};

// The statement of a file that passes the order to its length, settled into lists as long as the participants.
fn put_hour(
    file: &[u8],
    page: &mut [u8],
    congestion: &mut [i64],
    loss: &mut [i64],
    credit: &mut [i64],
    net: &mut [i64],
) -> usize
    requires file_value { (frame_refusal file.now ≡ 0) × (6825 ≤ length page.old) }
    requires outputs { Outputs (hour_of file.now).participants congestion.old loss.old credit.old net.old }
    requires cleared { Cleared congestion.old loss.old credit.old }
    ensures written { Written page.old 0 (statement_of file.now) page.new result }
    ensures upper_bound { result ≤ 6825 }
{
    if let Err(refusal) = hour_settle::settle(file, congestion, loss, credit, net) {
        return statement::put_refused(page, u32::from(refusal));
    }
    statement::put_settled(
        page,
        Bills {
            congestion,
            loss,
            credit,
            net,
        },
    )
}

// The statement of a file, at the start of a page; the answer is its length. 64 participants and their sums have 65 lines
// of 105 bytes at most.
pub fn put_statement(file: &[u8], page: &mut [u8; 6825]) -> usize
    ensures value { result ≡ length (statement_of file.now) }
    ensures page_after { page.new ≡ statement_of file.now ++ drop (length (statement_of file.now)) page.old }
{
    if let Err(refusal) = exercise_file::frame_refusal(file) {
        return statement::put_refused(page, u32::from(refusal));
    }
    let mut congestion = [0i64; 64];
    let mut loss = [0i64; 64];
    let mut credit = [0i64; 64];
    let mut net = [0i64; 64];
    let n = exercise_file::read_header(file).participants;
    put_hour(
        file,
        page,
        &mut congestion[..n],
        &mut loss[..n],
        &mut credit[..n],
        &mut net[..n],
    )
}

// Reads until the buffer is full or the input has ended; the answer is how many bytes were read.
fn read_full(from: &mut impl Read, buffer: &mut [u8]) -> io::Result<usize>
    ensures { IfOk result (λ n. n ≤ length buffer.new) }
{
    let mut n: usize = 0;
    while n < buffer.len() {
        let got = from.read(&mut buffer[n..])?;
        if got == 0 {
            break;
        }
        n += got;
    }
    Ok(n)
}

// The program: the statement of the exercise file on standard input. It reads one byte more than the longest file has, so
// that longer input is refused by its length.
fn main(rt: HostRuntime) -> io::Result<()> {
    let mut file = [0u8; 19078];
    let n = read_full(&mut rt.stdin(), &mut file)?;
    let mut page = [0u8; 6825];
    let length = put_statement(&file[..n], &mut page);
    rt.stdout().write_all(&page[..length])
}

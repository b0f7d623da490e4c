ghost use Rattle.std.specs.Prelude.{◌≡◌, ◌++◌, ◌≤◌, IfOk, OnOk, map, take, string_bytes};
ghost use Rattle.chart.specs.Text.{cut_text, most_lines, peer_line, peers_text, shown, shown_line, text_of};

use std::alloc::{AllocError, Global};

/// The greatest number of lines that a chart shows.
const MOST_LINES: usize = 500;

/// Appends a line of a chart, which comes `count` times in a row.
fn push_line(text: &mut String, line: &str, count: u64) -> Result<(), AllocError>
    ensures { OnOk result (string_bytes text.new ≡ string_bytes text.old ++ shown_line line.now count) }
{
    if count == 1 {
        return write!(text, "    {line}\n");
    }
    write!(text, "    {line} ({count} times)\n")
}

/// Appends the lines. Equal lines in a row are shown once.
fn push_lines(text: &mut String, lines: &[String]) -> Result<(), AllocError>
    ensures { OnOk result (string_bytes text.new ≡ string_bytes text.old ++ shown (map string_bytes lines.now)) }
{
    let Some(first) = lines.first() else {
        return Ok(());
    };
    let mut line = first;
    let mut count = 1;
    for place in 1..lines.len() {
        let next = &lines[place];
        if line.as_bytes() == next.as_bytes() {
            count += 1;
        } else {
            push_line(text, line.as_str(), count)?;
            line = next;
            count = 1;
        }
    }
    push_line(text, line.as_str(), count)
}

/// Appends a peer.
fn push_peer(text: &mut String, peer: u32) -> Result<(), AllocError>
    ensures { OnOk result (string_bytes text.new ≡ string_bytes text.old ++ peer_line peer) }
{
    write!(text, "    participant {peer} as peer {peer}\n")
}

/// Appends the peers 1 to `peers`.
fn push_peers(text: &mut String, peers: u32) -> Result<(), AllocError>
    requires { peers ≤ 31 }
    ensures { OnOk result (string_bytes text.new ≡ string_bytes text.old ++ peers_text 1 peers) }
{
    for below in 0..peers {
        push_peer(text, below + 1)?;
    }
    Ok(())
}

/// Appends what tells that lines are left out, if they are.
fn push_cut(text: &mut String, lines: &[String]) -> Result<(), AllocError>
    ensures { OnOk result (string_bytes text.new ≡ string_bytes text.old ++ cut_text (map string_bytes lines.now)) }
{
    if lines.len() <= MOST_LINES {
        return Ok(());
    }
    text.push_str("    Note over 1: the run goes on, but no more of it is shown\n")
}

/// Returns the first lines.
fn first_lines(lines: &[String]) -> &[String]
    ensures { map string_bytes result.now ≡ take most_lines (map string_bytes lines.now) }
{
    if lines.len() <= MOST_LINES {
        return lines;
    }
    &lines[..MOST_LINES]
}

/// Returns the chart of these lines, among the peers 1 to `peers`. A chart shows 500 lines at most.
pub fn chart_text(alloc: Global, peers: u32, lines: &[String]) -> Result<String, AllocError>
    requires { peers ≤ 31 }
    ensures { IfOk result (λ text. string_bytes text ≡ text_of peers (map string_bytes lines.now)) }
{
    let mut text = String::from_str(alloc, "sequenceDiagram\n")?;
    push_peers(&mut text, peers)?;
    push_lines(&mut text, first_lines(lines))?;
    push_cut(&mut text, lines)?;
    Ok(text)
}

ghost use Rattle.std.specs.Prelude.{◌≡◌, ◌≢◌, ◌↔◌, ◌++◌, ℕ, ◌<◌, List, [], length, take, drop, IfOk, IfErr, OnErr, OnOk, IsOkAnd, IsTrue, true, false};
ghost use Rattle.std.specs.Io.KnownBytes.{Appends, Consumes, IsAtEnd, Keeps};
ghost use Rattle.http1.specs.Head.{pairs};
ghost use Rattle.http_exchange.specs.Exchanges.{received, sent, Nexts, refused, answered_by, closed_by, WantsRead, IsDone, IsAsked, size_of, answer_text, continue_text};
ghost use Rattle.http_exchange.specs.declared.stage.Stage.TheVariants.{Open as open_stage};

use crate::front::{Front, read_front};
use crate::limits::MAX_TEXT;
use crate::refusal::Refusal;
use crate::request::Request;
use crate::stage::Stage;
use bytes::BytesMut;
use http1::{BodySize, Header, Server, WriteError};
use std::alloc::{AllocError, Global};
use std::io::{Read, Write};
use std::marker::Model;
use std::{io, mem};

/// The room that each read is given, in bytes.
const READ_SIZE: usize = 2048;

const CONTINUE: &[u8] = b"HTTP/1.1 100 Continue\r\n\r\n";

/// One connection: what it received and has not handed out, what it has to send, and where it stands.
#[derive(Drop)]
pub struct Exchange {
    alloc: Global,
    stage: Stage,
    input: BytesMut,
    output: BytesMut,
}

impl Model for Exchange {
    ghost use Rattle.http_exchange.specs.Exchanges.{Connection};

    ghost Value = { Connection };

    ghost view = { λ e. record { stage = e.stage; unread = e.input.items; pending = e.output.items } };
}

impl Exchange {
    /// A connection that received nothing. Takes no memory.
    pub fn new(alloc: Global) -> Exchange
        ensures { result ≡ record { stage = open_stage false; unread = []; pending = [] } }
    {
        Exchange {
            alloc,
            stage: Stage::Open { invited: false },
            input: BytesMut::new(alloc),
            output: BytesMut::new(alloc),
        }
    }

    /// Whether more is to be received: no request waits for its answer, and nothing for being sent.
    pub fn wants_read(&self) -> bool
        ensures { IsTrue result ↔ WantsRead self.now }
    {
        matches!(self.stage, Stage::Open { .. }) && self.output.is_empty()
    }

    /// Whether bytes were received that belong to no request that was handed out.
    pub fn has_unread(&self) -> bool
        ensures { IsTrue result ↔ (0 < length self.now.unread) }
    {
        !self.input.is_empty()
    }

    /// Whether something is to be sent.
    pub fn wants_write(&self) -> bool
        ensures { IsTrue result ↔ (0 < length self.now.pending) }
    {
        !self.output.is_empty()
    }

    /// Whether a request waits for its answer.
    pub fn is_asked(&self) -> bool
        ensures { IsTrue result ↔ IsAsked self.now.stage }
    {
        matches!(self.stage, Stage::Asked { .. })
    }

    /// Whether the connection is over: close it.
    pub fn is_done(&self) -> bool
        ensures { IsTrue result ↔ IsDone self.now }
    {
        matches!(self.stage, Stage::Closed) && self.output.is_empty()
    }

    /// Receives once. If nothing came the peer sends no more, and a connection with no request that
    /// waits is closed.
    ///
    /// # Errors
    /// What the reader returned, or out of memory. The connection is unchanged.
    pub fn read_from<R: Read>(&mut self, reader: &mut R) -> io::Result<usize>
        ensures ok { IfOk result (λ n. (more : List ℕ) × (length more ≡ n)
            × Consumes (R.remaining reader.old) (R.remaining reader.new) more
            × (self.new ≡ received self.old more)) }
        ensures end { result ≡ Ok 0 → IsAtEnd (R.remaining reader.new) }
        ensures err { OnErr result ((self.new ≡ self.old)
            × Keeps (R.remaining reader.old) (R.remaining reader.new)) }
    {
        self.input.reserve(READ_SIZE)?;
        let count = self.input.read_from(reader)?;
        if count == 0 && matches!(self.stage, Stage::Open { .. }) {
            self.stage = Stage::Closed;
        }
        Ok(count)
    }

    /// Sends once.
    ///
    /// # Errors
    /// What the writer returned. The connection is unchanged.
    pub fn write_to<W: Write>(&mut self, writer: &mut W) -> io::Result<usize>
        ensures ok { IfOk result (λ n. (self.new ≡ sent self.old n)
            × Appends (W.contents writer.old) (W.contents writer.new) (take n self.old.pending)) }
        ensures err { OnErr result ((self.new ≡ self.old)
            × Keeps (W.contents writer.old) (W.contents writer.new)) }
    {
        let count = writer.write(self.output.as_slice())?;
        self.output.advance(count);
        Ok(count)
    }

    /// Ends the connection with an error of its own.
    fn refuse(&mut self, why: Refusal) -> Result<(), AllocError>
        ensures ok { OnOk result (self.new ≡ refused self.old why) }
        ensures err { OnErr result (self.new ≡ self.old) }
    {
        self.output.extend_from_slice(why.text())?;
        self.stage = Stage::Closed;
        Ok(())
    }

    /// Asks for the body of a request whose sender waits for that.
    fn invite(&mut self) -> Result<(), AllocError>
        ensures ok { OnOk result (self.new
            ≡ record (self.old) { stage = open_stage true; pending = self.old.pending ++ continue_text }) }
        ensures err { OnErr result (self.new ≡ self.old) }
    {
        self.output.extend_from_slice(CONTINUE)?;
        self.stage = Stage::Open { invited: true };
        Ok(())
    }

    /// Hands out the next request, if it is whole and the one before it was answered. What is no request
    /// is refused, and ends the connection.
    ///
    /// # Errors
    /// Out of memory. The connection is unchanged.
    pub fn next(&mut self) -> Result<Option<Request>, AllocError>
        ensures ok { IfOk result (Nexts self.old self.new) }
        ensures err { OnErr result (self.new ≡ self.old) }
    {
        let Stage::Open { invited } = self.stage else {
            return Ok(None);
        };
        match read_front(self.alloc, self.input.as_slice())? {
            Front::Whole(whole) => {
                self.input.advance(whole.len);
                self.stage = Stage::Asked {
                    server: whole.server,
                    bodiless: whole.bodiless,
                };
                return Ok(Some(whole.request));
            }
            Front::Partial(waits) => {
                if self.input.len() > MAX_TEXT {
                    self.refuse(Refusal::TextTooLong)?;
                } else if waits && !invited {
                    self.invite()?;
                }
            }
            Front::Refused(why) => self.refuse(why)?,
        }
        Ok(None)
    }

    /// Answers the request that waits, if one does. To `HEAD` the answer goes without its body. An answer
    /// that may not be sent is replaced by a status 500, and ends the connection.
    ///
    /// # Errors
    /// Out of memory. The connection is closed, and nothing of the answer is sent.
    pub fn answer(
        &mut self,
        status: u16,
        reason: &[u8],
        headers: &[Header<'_>],
        body: &[u8],
    ) -> Result<(), AllocError>
        ensures ok { OnOk result (self.new ≡ answered_by self.old status reason.now (pairs headers.now) body.now) }
        ensures err { OnErr result (self.new ≡ closed_by self.old) }
    {
        if !self.is_asked() {
            return Ok(());
        }
        let stage = mem::replace(&mut self.stage, Stage::Closed);
        let Stage::Asked {
            mut server,
            bodiless,
        } = stage
        else {
            return Ok(());
        };
        let mut text = BytesMut::new(self.alloc);
        match write_answer(
            &mut server,
            bodiless,
            &mut text,
            status,
            reason,
            headers,
            body,
        ) {
            Ok(()) => {
                self.output.extend_from_slice(text.as_slice())?;
                if !server.is_closed() {
                    self.stage = Stage::Open { invited: false };
                }
                Ok(())
            }
            Err(e) => match e {
                WriteError::OutOfMemory => Err(AllocError),
                _ => self.refuse(Refusal::InvalidAnswer(e)),
            },
        }
    }
}

fn size_of(body: &[u8]) -> BodySize
    ensures { result ≡ size_of body.now }
{
    if body.is_empty() {
        BodySize::Empty
    } else {
        BodySize::Known(body.len() as u64)
    }
}

/// Appends an answer, without its body if it is bodiless.
fn write_answer(
    server: &mut Server,
    bodiless: bool,
    output: &mut BytesMut,
    status: u16,
    reason: &[u8],
    headers: &[Header<'_>],
    body: &[u8],
) -> Result<(), WriteError>
    ensures ok { OnOk result (IsOkAnd (answer_text server.old bodiless status reason.now (pairs headers.now) body.now)
        (λ w. (output.new.items ≡ output.old.items ++ w.text) × (server.new ≡ w.server))) }
    ensures err { IfErr result (λ e. e ≢ WriteError.OutOfMemory
        → answer_text server.old bodiless status reason.now (pairs headers.now) body.now ≡ Err e) }
{
    server.write_response(output, status, reason, headers, size_of(body))?;
    if !bodiless && !body.is_empty() {
        server.write_data(output, body)?;
    }
    server.write_end(output, &[])
}

ghost use Rattle.std.specs.Prelude.{◌≡◌, ◌++◌, codes, decimal};
ghost use Rattle.kv_outside.specs.Writing.{Writes};
ghost use Rattle.redis_model.specs.Render.{render, line_end, word_text, error_text};

use itoa::Buffer;
use kv_outside::{Failed, Sink, write_all, write_pieces};
use redis_model::{Reply, ReplyError, TypeWord};

/// Writes the reply as the bytes of RESP2. Where the sink fails it holds a front of them, and the answer is `Failed`.
/// Nothing is allocated; each level of arrays in arrays takes stack.
#[cycle(reply)]
pub fn write_reply<K: Sink>(reply: &Reply, sink: &mut K) -> Result<(), Failed>
    ensures { Writes (K.held sink.old) (K.held sink.new) (K.faults sink.old) (K.faults sink.new) (render reply.now) result }
{
    match reply {
        Reply::Ok => write_all(b"+OK\r\n", sink),
        Reply::Pong => write_all(b"+PONG\r\n", sink),
        Reply::Word(word) => write_word(*word, sink),
        Reply::Int(number) => write_int(*number, sink),
        Reply::Bulk(blob) => write_bulk(blob.bytes(), sink),
        Reply::Null => write_all(b"$-1\r\n", sink),
        Reply::NullArray => write_all(b"*-1\r\n", sink),
        Reply::Array(parts) => write_array(parts.as_slice(), sink),
        Reply::Error(error) => write_error(*error, sink),
    }
}

/// Writes the error as `write_reply` writes `Reply::Error` of it.
pub fn write_error<K: Sink>(error: ReplyError, sink: &mut K) -> Result<(), Failed>
    ensures { Writes (K.held sink.old) (K.held sink.new) (K.faults sink.old) (K.faults sink.new) (render (Reply.Error error)) result }
{
    write_pieces(&[b"-", text_of_error(error), b"\r\n"], sink)
}

#[cycle(reply)]
fn write_array<K: Sink>(parts: &[Reply], sink: &mut K) -> Result<(), Failed>
    ensures { Writes (K.held sink.old) (K.held sink.new) (K.faults sink.old) (K.faults sink.new) (render (Reply.Array parts.now)) result }
{
    write_array_line(parts.len(), sink)?;
    for part in parts {
        write_reply(part, sink)?;
    }
    Ok(())
}

fn write_array_line<K: Sink>(count: usize, sink: &mut K) -> Result<(), Failed>
    ensures { Writes (K.held sink.old) (K.held sink.new) (K.faults sink.old) (K.faults sink.new) (codes "*" ++ decimal count ++ line_end) result }
{
    let mut buffer = Buffer::new();
    let digits = buffer.format(count).as_bytes();
    write_pieces(&[b"*", digits, b"\r\n"], sink)
}

fn write_word<K: Sink>(word: TypeWord, sink: &mut K) -> Result<(), Failed>
    ensures { Writes (K.held sink.old) (K.held sink.new) (K.faults sink.old) (K.faults sink.new) (render (Reply.Word word)) result }
{
    write_pieces(&[b"+", text_of_word(word), b"\r\n"], sink)
}

fn write_int<K: Sink>(number: i64, sink: &mut K) -> Result<(), Failed>
    ensures { Writes (K.held sink.old) (K.held sink.new) (K.faults sink.old) (K.faults sink.new) (render (Reply.Int number)) result }
{
    let mut buffer = Buffer::new();
    let digits = buffer.format(number).as_bytes();
    write_pieces(&[b":", digits, b"\r\n"], sink)
}

fn write_bulk<K: Sink>(bytes: &[u8], sink: &mut K) -> Result<(), Failed>
    ensures { Writes (K.held sink.old) (K.held sink.new) (K.faults sink.old) (K.faults sink.new) (render (Reply.Bulk bytes.now)) result }
{
    let mut buffer = Buffer::new();
    let digits = buffer.format(bytes.len()).as_bytes();
    write_pieces(&[b"$", digits, b"\r\n", bytes, b"\r\n"], sink)
}

fn text_of_word(word: TypeWord) -> &'static [u8]
    ensures { result.now ≡ word_text word }
{
    match word {
        TypeWord::None => b"none",
        TypeWord::Str => b"string",
        TypeWord::Hash => b"hash",
        TypeWord::List => b"list",
        TypeWord::Set => b"set",
        TypeWord::ZSet => b"zset",
    }
}

fn text_of_error(error: ReplyError) -> &'static [u8]
    ensures { result.now ≡ error_text error }
{
    match error {
        ReplyError::WrongType =>
            b"WRONGTYPE Operation against a key holding the wrong kind of value",
        ReplyError::NotInt => b"ERR value is not an integer or out of range",
        ReplyError::HashNotInt => b"ERR hash value is not an integer",
        ReplyError::Overflow => b"ERR increment or decrement would overflow",
        ReplyError::NoSuchKey => b"ERR no such key",
        ReplyError::IndexRange => b"ERR index out of range",
        ReplyError::ScoreRange => b"ERR score is out of range",
        ReplyError::TooLarge => b"ERR value too large",
        ReplyError::Pinned => b"ERR connection is pinned",
        ReplyError::AlreadyPinned => b"ERR already pinned",
        ReplyError::NotPinned => b"ERR not pinned",
    }
}

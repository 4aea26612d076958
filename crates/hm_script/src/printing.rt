// Writing the text of a script.

ghost use Rattle.std.specs.Prelude.{◌≡◌, ◌∷◌, ◌++◌, ◌/◌, ◌%◌, ◌<◌, ◌≤◌, false, length, codes, [], OnOk, IfOk, map};
ghost use Rattle.std.specs.List.{flat_map};
ghost use Rattle.std.specs.Fmt.{decimal, digits, digit_glyph};
ghost use Rattle.hm_script.specs.Spelling.{line, text, header_words, op_words, schedule_words, device_lines};
ghost use Rattle.hm_script.specs.Spelling.{skip_lines, actor_lines, address_text, hex_text, right_text};
ghost use Rattle.hm_script.specs.Spaced.{number_word};
ghost use Rattle.hm_base.specs.declared.ops.Op.{Op as AnyOp};

use hm_base::{
    Bytes, Dev, MirrorId, NoMemory, Op, OpList, Proc, Rights, ScheduleLine, Script, Span, Text,
    Version,
};
use std::alloc::Global;

fn put_decimal(out: &mut Text, number: u64) -> Result<(), NoMemory>
    ensures { OnOk result (out.new ≡ out.old ++ decimal number) }
{
    if number < 10 {
        return out.push(b'0' + number as u8);
    }
    put_decimal(out, number / 10)?;
    out.push(b'0' + (number % 10) as u8)
}

fn put_hex(out: &mut Text, number: u64) -> Result<(), NoMemory>
    ensures { OnOk result (out.new ≡ out.old ++ digits 16 false number) }
{
    if number < 16 {
        return out.push(hex_digit(number as u8));
    }
    put_hex(out, number / 16)?;
    out.push(hex_digit((number % 16) as u8))
}

/// A number after its space.
fn put_number(out: &mut Text, number: u64) -> Result<(), NoMemory>
    ensures { OnOk result (out.new ≡ out.old ++ number_word number) }
{
    out.push(b' ')?;
    put_decimal(out, number)
}

/// An address after its space.
fn put_address(out: &mut Text, address: u64) -> Result<(), NoMemory>
    ensures { OnOk result (out.new ≡ out.old ++ 32 ∷ address_text address) }
{
    out.extend(b" 0x")?;
    put_hex(out, address)
}

/// A word, and numbers after it.
fn put_numbers(out: &mut Text, word: &[u8], numbers: &[u64]) -> Result<(), NoMemory>
    ensures { OnOk result (out.new ≡ out.old ++ (word.now ++ flat_map number_word numbers.now)) }
{
    out.extend(word)?;
    for number in numbers {
        put_number(out, *number)?;
    }
    Ok(())
}

/// A line of a word and numbers.
fn put_line(out: &mut Text, word: &[u8], numbers: &[u64]) -> Result<(), NoMemory>
    ensures { OnOk result (out.new ≡ out.old ++ line (word.now ∷ map decimal numbers.now)) }
{
    put_numbers(out, word, numbers)?;
    out.push(b'\n')
}

/// A word after its space.
fn put_word(out: &mut Text, word: &[u8]) -> Result<(), NoMemory>
    ensures { OnOk result (out.new ≡ out.old ++ 32 ∷ word.now) }
{
    out.push(b' ')?;
    out.extend(word)
}

fn hex_digit(value: u8) -> u8
    requires { value < 16 }
    ensures { result ≡ digit_glyph false value }
{
    if value < 10 {
        b'0' + value
    } else {
        b'a' + (value - 10)
    }
}

/// Adds two digits for each byte.
pub fn extend_hex(text: &mut Text, bytes: &[u8]) -> Result<(), NoMemory>
    ensures { OnOk result (text.new ≡ text.old ++ hex_text bytes.now) }
{
    for byte in bytes {
        text.push(hex_digit(*byte / 16))?;
        text.push(hex_digit(*byte % 16))?;
    }
    Ok(())
}

/// Bytes after their space.
fn put_bytes(out: &mut Text, bytes: &[u8]) -> Result<(), NoMemory>
    ensures { OnOk result (out.new ≡ out.old ++ 32 ∷ hex_text bytes.now) }
{
    out.push(b' ')?;
    extend_hex(out, bytes)
}

fn right_word(rights: Rights) -> &'static [u8]
    ensures { result.now ≡ right_text rights }
{
    match rights {
        Rights::Read => b"r",
        Rights::ReadWrite => b"rw",
    }
}

/// A line of a word, a process, a span and a right.
fn put_rights(out: &mut Text, word: &[u8], numbers: &[u64], rights: Rights) -> Result<(), NoMemory>
    ensures { OnOk result (out.new ≡ out.old ++ line (word.now ∷ (map decimal numbers.now ++ right_text rights ∷ []))) }
{
    put_numbers(out, word, numbers)?;
    put_word(out, right_word(rights))?;
    out.push(b'\n')
}

/// A line of a word, a number, an address and a number of bytes.
#[tactic(auto, using(std::proofs::Common::append_assoc))]
fn put_access(
    out: &mut Text,
    word: &[u8],
    number: u64,
    address: u64,
    len: u32,
) -> Result<(), NoMemory>
    ensures { OnOk result
        (out.new ≡ out.old ++ line (word.now ∷ decimal number ∷ address_text address ∷ decimal len ∷ [])) }
{
    out.extend(word)?;
    put_number(out, number)?;
    put_address(out, address)?;
    put_number(out, u64::from(len))?;
    out.push(b'\n')
}

/// A line of a word, a number, an address and bytes.
#[tactic(auto, using(std::proofs::Common::append_assoc))]
fn put_store(
    out: &mut Text,
    word: &[u8],
    number: u64,
    address: u64,
    bytes: &Bytes,
) -> Result<(), NoMemory>
    ensures { OnOk result
        (out.new ≡ out.old ++ line (word.now ∷ decimal number ∷ address_text address ∷ hex_text bytes.now ∷ [])) }
{
    out.extend(word)?;
    put_number(out, number)?;
    put_address(out, address)?;
    put_bytes(out, bytes.as_slice())?;
    out.push(b'\n')
}

/// The line of a word, a process, a span and a right.
fn put_area(
    out: &mut Text,
    word: &[u8],
    proc: Proc,
    span: Span,
    rights: Rights,
) -> Result<(), NoMemory>
    ensures { OnOk result (out.new ≡ out.old ++ line
        (word.now ∷ decimal proc ∷ decimal span.first ∷ decimal span.count ∷ right_text rights ∷ [])) }
{
    let numbers = [number_of(proc), first_of(span), span.count()];
    put_rights(out, word, &numbers, rights)
}

/// The line of an `attach`.
fn put_attach(
    out: &mut Text,
    mirror: MirrorId,
    dev: Dev,
    proc: Proc,
    span: Span,
) -> Result<(), NoMemory>
    ensures { OnOk result (out.new ≡ out.old ++ line (op_words (AnyOp.Attach mirror dev proc span))) }
{
    let numbers = [
        mirror_of(mirror),
        device_of(dev),
        number_of(proc),
        first_of(span),
        span.count(),
    ];
    put_line(out, b"attach", &numbers)
}

/// The line of an operation.
fn put_op(out: &mut Text, op: &Op) -> Result<(), NoMemory>
    ensures { OnOk result (out.new ≡ out.old ++ line (op_words op.now)) }
{
    match op {
        Op::Map { proc, span, rights } => put_area(out, b"map", *proc, *span, *rights),
        Op::Unmap { proc, span } => put_pages(out, b"unmap", number_of(*proc), *span),
        Op::Protect { proc, span, rights } => put_area(out, b"protect", *proc, *span, *rights),
        Op::Load { proc, addr, len } => put_access(out, b"load", number_of(*proc), *addr, *len),
        Op::Store { proc, addr, bytes } => {
            put_store(out, b"store", number_of(*proc), *addr, bytes)
        }
        Op::Fork { proc, child } => put_line(out, b"fork", &[number_of(*proc), number_of(*child)]),
        Op::Exit { proc } => put_line(out, b"exit", &[number_of(*proc)]),
        Op::Attach {
            mirror,
            dev,
            proc,
            span,
        } => put_attach(out, *mirror, *dev, *proc, *span),
        Op::Detach { mirror } => put_line(out, b"detach", &[mirror_of(*mirror)]),
        Op::DeviceLoad { mirror, addr, len } => {
            put_access(out, b"dload", mirror_of(*mirror), *addr, *len)
        }
        Op::DeviceStore {
            mirror,
            addr,
            bytes,
        } => put_store(out, b"dstore", mirror_of(*mirror), *addr, bytes),
        Op::ToDevice { mirror, span } => put_pages(out, b"todev", mirror_of(*mirror), *span),
        Op::ToSystem { mirror, span } => put_pages(out, b"tosys", mirror_of(*mirror), *span),
        Op::Snap { mirror, span } => put_pages(out, b"snap", mirror_of(*mirror), *span),
        Op::Evict { dev } => put_line(out, b"evict", &[device_of(*dev)]),
        Op::Remove { dev } => put_line(out, b"remove", &[device_of(*dev)]),
        Op::Exclusive { mirror, page } => {
            put_line(out, b"exclusive", &[mirror_of(*mirror), page.number()])
        }
        Op::Add {
            mirror,
            addr,
            amount,
        } => put_access(out, b"dadd", mirror_of(*mirror), *addr, u32::from(*amount)),
    }
}

fn number_of(proc: Proc) -> u64
    ensures { result ≡ proc }
{
    u64::from(proc.number())
}

fn mirror_of(mirror: MirrorId) -> u64
    ensures { result ≡ mirror }
{
    u64::from(mirror.number())
}

fn device_of(dev: Dev) -> u64
    ensures { result ≡ dev }
{
    u64::from(dev.number())
}

fn first_of(span: Span) -> u64
    ensures { result ≡ span.first }
{
    span.first().number()
}

/// A line of a word, a number and a span.
fn put_pages(out: &mut Text, word: &[u8], number: u64, span: Span) -> Result<(), NoMemory>
    ensures { OnOk result
        (out.new ≡ out.old ++ line (word.now ∷ decimal number ∷ decimal span.first ∷ decimal span.count ∷ [])) }
{
    put_line(out, word, &[number, first_of(span), span.count()])
}

fn put_devices(out: &mut Text, devices: &[u32]) -> Result<(), NoMemory>
    requires { length devices.now ≤ 4 }
    ensures { OnOk result (out.new ≡ out.old ++ flat_map line (device_lines 0 devices.now)) }
{
    let mut device: u64 = 0;
    for frames in devices {
        put_line(out, b"device", &[device, u64::from(*frames)])?;
        device += 1;
    }
    Ok(())
}

fn put_skip(out: &mut Text, skip: u64) -> Result<(), NoMemory>
    ensures { OnOk result (out.new ≡ out.old ++ flat_map line (skip_lines skip)) }
{
    if skip == 0 {
        return Ok(());
    }
    put_line(out, b"skip", &[skip])
}

fn put_ops(out: &mut Text, ops: &[Op]) -> Result<(), NoMemory>
    ensures { OnOk result (out.new ≡ out.old ++ flat_map line (map op_words ops.now)) }
{
    for op in ops {
        put_op(out, op)?;
    }
    Ok(())
}

/// The lines of one actor.
fn put_actor(out: &mut Text, actor: u64, ops: &OpList) -> Result<(), NoMemory>
    ensures { OnOk result
        (out.new ≡ out.old ++ flat_map line ((codes "actor" ∷ decimal actor ∷ []) ∷ map op_words ops.now)) }
{
    put_line(out, b"actor", &[actor])?;
    put_ops(out, ops.as_slice())
}

fn put_actors(out: &mut Text, actors: &[OpList]) -> Result<(), NoMemory>
    requires { length actors.now ≤ 16 }
    ensures { OnOk result (out.new ≡ out.old ++ flat_map line (actor_lines 0 actors.now)) }
{
    let mut actor: u64 = 0;
    for ops in actors {
        put_actor(out, actor, ops)?;
        actor += 1;
    }
    Ok(())
}

fn put_schedule(out: &mut Text, schedule: &[ScheduleLine]) -> Result<(), NoMemory>
    ensures { OnOk result (out.new ≡ out.old ++ flat_map line (map schedule_words schedule.now)) }
{
    for line in schedule {
        match line {
            ScheduleLine::Run { actor, count } => {
                let numbers = [u64::from(actor.number()), u64::from(*count)];
                put_line(out, b"turns", &numbers)?;
            }
            ScheduleLine::Drain => put_line(out, b"drain", &[])?,
        }
    }
    Ok(())
}

/// The first line.
fn header_of(version: Version) -> &'static [u8]
    ensures { result.now ≡ line (header_words version) }
{
    match version {
        Version::One => b"hmm 1\n",
        Version::Two => b"hmm 2\n",
    }
}

/// The one text of the script.
pub fn print(alloc: Global, script: &Script) -> Result<Text, NoMemory>
    ensures { IfOk result (λ t. t ≡ text script.now) }
{
    let mut out = Text::new(alloc);
    out.extend(header_of(script.version))?;
    put_line(&mut out, b"frames", &[u64::from(script.frames)])?;
    put_devices(&mut out, script.devices.as_slice())?;
    put_skip(&mut out, script.skip)?;
    put_actors(&mut out, script.actors.as_slice())?;
    put_schedule(&mut out, script.schedule.as_slice())?;
    Ok(out)
}

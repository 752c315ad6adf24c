// The C interface, libringlog_c.a: the calls for users as functions of C. include/ringlog.h documents
// it for them.
//
// A call returns a struct by value, so a refused call writes nothing that it was lent. An exported function
// can return no enum, so that a struct holds numbers, 0 where nothing is refused or found.
// specs/Wire.antt says what each struct holds.
#![tactic(auto)]

ghost use Rattle.std.specs.Prelude.{◌≡◌, length};
ghost use Rattle.sha256.specs.Answer.{hashed, hashed_of};
ghost use Rattle.slate.specs.Tree.{rfc6962, slate};
ghost use Rattle.ringlog.specs.Answer.{after, answer, count_of, root_answer_of};
ghost use Rattle.ringlog.specs.Append.{appended};
ghost use Rattle.ringlog.specs.Audit.{Longest, audited};
ghost use Rattle.ringlog.specs.Cut.{after_cut, cut_to};
ghost use Rattle.ringlog.specs.Root.{root_answer};
ghost use Rattle.inclusion.specs.Check.{proof_holds};
ghost use Rattle.inclusion.specs.Prove.{proof_of};
ghost use Rattle.inclusion.specs.Value.{checked_value, part_answer_of};
ghost use Rattle.split.specs.Answer.{answer_of, split_of};
ghost use Rattle.split.specs.Repair.{numbered, place_of};
ghost use Rattle.split.specs.Search.{searched};
ghost use Rattle.rfc6962.specs.Consistency.{consistency_holds};
ghost use Rattle.rfc6962.specs.Prove.{consistency_of, path_of};
ghost use Rattle.rfc6962.specs.Root as rfc;
ghost use Rattle.ringlog_c.specs.Wire.{count_wire, digest_wire, extent_wire, part_wire, piece_wire, root_wire, split_wire};

use entry::Cause;
use inclusion::Part;
use ringlog::Audited;
use sha256::TooLong;
use split::{Donor, Piece, SearchAnswer, SearchRefusal};

// struct ringlog_count
#[repr(C)]
#[derive(Drop)]
pub struct CountWire {
    pub number: u32,
    pub value: u64,
}

// struct ringlog_extent
#[repr(C)]
#[derive(Drop)]
pub struct ExtentWire {
    pub entries: u64,
    pub bytes: u64,
}

// struct ringlog_digest
#[repr(C)]
#[derive(Drop)]
pub struct DigestWire {
    pub number: u32,
    pub digest: [u8; 32],
}

// struct ringlog_part
#[repr(C)]
#[derive(Drop)]
pub struct PartWire {
    pub number: u32,
    pub offset: u64,
    pub length: u64,
}

// struct ringlog_split
#[repr(C)]
#[derive(Drop)]
pub struct SplitWire {
    pub number: u32,
    pub side: u32,
    pub common: u64,
    pub verdict: u32,
    pub place: u64,
    pub first_reads: u64,
    pub second_reads: u64,
}

// struct ringlog_piece
#[repr(C)]
#[derive(Drop)]
pub struct PieceWire {
    pub donor: u32,
    pub offset: u64,
    pub length: u64,
}

// A number of bytes or a refusal, by the numbers of document 01.
impl From<Result<usize, Cause>> for CountWire {
    ghost from_gives = { λ answer wire. wire ≡ count_wire (count_of answer) };

    fn from(answer: Result<usize, Cause>) -> CountWire {
        match answer {
            Ok(bytes) => CountWire {
                number: 0,
                value: bytes as u64,
            },
            Err(cause) => CountWire {
                number: u32::from(cause),
                value: 0,
            },
        }
    }
}

impl From<Audited> for ExtentWire {
    ghost from_gives = { λ audited wire. wire ≡ extent_wire audited };

    fn from(audited: Audited) -> ExtentWire {
        ExtentWire {
            entries: audited.entries as u64,
            bytes: audited.bytes as u64,
        }
    }
}

// A message that is too long is refused with 1. Apart from that of a root, since this refusal is no Cause.
impl From<Result<[u8; 32], TooLong>> for DigestWire {
    ghost from_gives = { λ answer wire. wire ≡ digest_wire (hashed_of answer) };

    fn from(answer: Result<[u8; 32], TooLong>) -> DigestWire {
        match answer {
            Ok(digest) => DigestWire { number: 0, digest },
            Err(TooLong) => DigestWire {
                number: 1,
                digest: [0; 32],
            },
        }
    }
}

// A root or a refusal.
impl From<Result<[u8; 32], Cause>> for DigestWire {
    ghost from_gives = { λ answer wire. wire ≡ root_wire (root_answer_of answer) };

    fn from(answer: Result<[u8; 32], Cause>) -> DigestWire {
        match answer {
            Ok(digest) => DigestWire { number: 0, digest },
            Err(cause) => DigestWire {
                number: u32::from(cause),
                digest: [0; 32],
            },
        }
    }
}

impl From<Result<Part, Cause>> for PartWire {
    ghost from_gives = { λ answer wire. wire ≡ part_wire (part_answer_of answer) };

    fn from(answer: Result<Part, Cause>) -> PartWire {
        match answer {
            Ok(part) => PartWire {
                number: 0,
                offset: part.offset as u64,
                length: part.length as u64,
            },
            Err(cause) => PartWire {
                number: u32::from(cause),
                offset: 0,
                length: 0,
            },
        }
    }
}

// The search's answer or its refusal, by numbers.
impl From<Result<SearchAnswer, SearchRefusal>> for SplitWire {
    ghost from_gives = { λ answer wire. wire ≡ split_wire (answer_of answer) };

    fn from(answer: Result<SearchAnswer, SearchRefusal>) -> SplitWire {
        match answer {
            Ok(found) => SplitWire {
                number: 0,
                side: 0,
                common: found.common as u64,
                verdict: u32::from(found.verdict),
                place: found.verdict.place().unwrap_or(0) as u64,
                first_reads: found.first_reads as u64,
                second_reads: found.second_reads as u64,
            },
            Err(refusal) => SplitWire {
                number: u32::from(refusal.cause),
                side: u32::from(refusal.side),
                common: 0,
                verdict: 0,
                place: 0,
                first_reads: 0,
                second_reads: 0,
            },
        }
    }
}

// The donor by its number, 0 where there is none.
impl From<Option<Piece>> for PieceWire {
    ghost from_gives = { λ piece wire. wire ≡ piece_wire (numbered piece) };

    fn from(piece: Option<Piece>) -> PieceWire {
        match piece {
            Some(piece) => PieceWire {
                donor: u32::from(piece.donor),
                offset: piece.offset as u64,
                length: piece.length as u64,
            },
            None => PieceWire {
                donor: 0,
                offset: 0,
                length: 0,
            },
        }
    }
}

#[unsafe(no_mangle)]
pub extern "C" fn ringlog_sha256(message: &[u8]) -> DigestWire
    ensures { result ≡ digest_wire (hashed message.now) }
{
    DigestWire::from(sha256::sha256(message))
}

#[unsafe(no_mangle)]
pub extern "C" fn ringlog_append(buffer: &mut [u8], used: usize, item: &[u8]) -> CountWire
    ensures value { result ≡ count_wire (answer used (appended buffer.old used item.now)) }
    ensures buffer_after { buffer.new ≡ after buffer.old used (appended buffer.old used item.now) }
{
    CountWire::from(ringlog::append(buffer, used, item))
}

#[unsafe(no_mangle)]
pub extern "C" fn ringlog_audit(bytes: &[u8]) -> ExtentWire
    ensures value { result ≡ extent_wire (audited bytes.now) }
    ensures longest { Longest bytes.now (record { entries = result.entries; bytes = result.bytes }) }
{
    ExtentWire::from(ringlog::audit(bytes))
}

#[unsafe(no_mangle)]
pub extern "C" fn ringlog_root(log: &[u8]) -> DigestWire
    ensures { result ≡ root_wire (root_answer log.now) }
{
    DigestWire::from(ringlog::root(log))
}

#[unsafe(no_mangle)]
pub extern "C" fn ringlog_cut(buffer: &mut [u8], used: usize, count: usize) -> CountWire
    ensures value { result ≡ count_wire (cut_to buffer.old used count) }
    ensures buffer_after { buffer.new ≡ after_cut buffer.old used count }
{
    CountWire::from(ringlog::cut(buffer, used, count))
}

#[unsafe(no_mangle)]
pub extern "C" fn ringlog_value(log: &[u8], root: &[u8], index: usize) -> PartWire
    ensures { result ≡ part_wire (checked_value log.now root.now index) }
{
    PartWire::from(inclusion::value_place(log, root, index))
}

#[unsafe(no_mangle)]
pub extern "C" fn ringlog_proof(log: &[u8], index: usize, output: &mut [u8]) -> CountWire
    ensures value { result ≡ count_wire (answer 0 (proof_of log.now index (length output.old))) }
    ensures output_after { output.new ≡ after output.old 0 (proof_of log.now index (length output.old)) }
{
    CountWire::from(inclusion::proof(log, index, output))
}

#[unsafe(no_mangle)]
pub extern "C" fn ringlog_check_proof(
    count: usize,
    index: usize,
    item: &[u8],
    proof: &[u8],
    root: &[u8],
) -> bool
    ensures { result ≡ proof_holds slate count index item.now proof.now root.now }
{
    inclusion::check_proof(count, index, item, proof, root)
}

#[unsafe(no_mangle)]
pub extern "C" fn ringlog_search(first: &[u8], second: &[u8]) -> SplitWire
    ensures { result ≡ split_wire (split_of (searched first.now second.now)) }
{
    SplitWire::from(split::search(first, second))
}

#[unsafe(no_mangle)]
pub extern "C" fn ringlog_repair(first: &[u8], second: &[u8]) -> PieceWire
    ensures { result ≡ piece_wire (place_of first.now second.now (searched first.now second.now)) }
{
    PieceWire::from(split::repair_place(first, second))
}

#[unsafe(no_mangle)]
pub extern "C" fn ringlog_rfc6962_root(log: &[u8]) -> DigestWire
    ensures { result ≡ root_wire (rfc.root_answer log.now) }
{
    DigestWire::from(rfc6962::root(log))
}

#[unsafe(no_mangle)]
pub extern "C" fn ringlog_rfc6962_path(log: &[u8], index: usize, output: &mut [u8]) -> CountWire
    ensures value { result ≡ count_wire (answer 0 (path_of log.now index (length output.old))) }
    ensures output_after { output.new ≡ after output.old 0 (path_of log.now index (length output.old)) }
{
    CountWire::from(rfc6962::path(log, index, output))
}

#[unsafe(no_mangle)]
pub extern "C" fn ringlog_rfc6962_check_path(
    count: usize,
    index: usize,
    item: &[u8],
    path: &[u8],
    root: &[u8],
) -> bool
    ensures { result ≡ proof_holds rfc6962 count index item.now path.now root.now }
{
    rfc6962::check_path(count, index, item, path, root)
}

#[unsafe(no_mangle)]
pub extern "C" fn ringlog_rfc6962_consistency(log: &[u8], m: usize, output: &mut [u8]) -> CountWire
    ensures value { result ≡ count_wire (answer 0 (consistency_of log.now m (length output.old))) }
    ensures output_after { output.new ≡ after output.old 0 (consistency_of log.now m (length output.old)) }
{
    CountWire::from(rfc6962::consistency(log, m, output))
}

#[unsafe(no_mangle)]
pub extern "C" fn ringlog_rfc6962_check_consistency(
    m: usize,
    n: usize,
    proof: &[u8],
    old: &[u8],
    new: &[u8],
) -> bool
    ensures { result ≡ consistency_holds rfc6962 m n proof.now old.now new.now }
{
    rfc6962::check_consistency(m, n, proof, old, new)
}

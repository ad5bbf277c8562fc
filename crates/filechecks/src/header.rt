// The first bytes of a file of version 1 or 2: the mark, the version, the unknowns, and the counts of nodes, parts and slots; checks 10 to 14 and 28.
ghost use Rattle.std.specs.Prelude.{◌≡◌, false, ◌+◌, ◌*◌, ◌≤◌, length, IfOk};
ghost use Rattle.plan.specs.Refusals.{fault_of, first_fault};
ghost use Rattle.plan.specs.File.{version_of, nodes_at, unknowns_in, parse, bad_header};
ghost use Rattle.plan.specs.Reading.{bad_magic, bad_version, too_few_in_version2, bad_length, header_checks};
ghost use Rattle.filechecks.specs.Fields.{counts_only};
ghost use Rattle.filechecks.specs.Heads.{HeadOf};

use coding::{read16, read32};
use mesh::bad_node_count;
use plan::{Plan, Refusal};

// "the letters NDP"
pub const MAGIC: [u8; 3] = *b"NDP";
// the version without unknowns: each node has one
const VERSION_1: u16 = 1;
// how many bytes stand before the order there
const HEADER_1: usize = 17;
// the version that holds the unknowns, and is written
pub const VERSION: u16 = 2;
// how many bytes stand before the order there
pub const HEADER: usize = 19;
// how many bytes the counts of nodes, parts and slots take, which stand before the order
const COUNTS: usize = 12;

// What a file's first bytes say: where they end and the order begins, the unknowns for each node, and how many nodes, parts and slots the plan has.
#[derive(Clone, Copy)]
pub struct Head {
    pub end: usize,
    pub unknowns: usize,
    pub nodes: usize,
    pub parts: usize,
    pub slots: usize,
}

// How many bytes stand before the order, by the version. O(1).
#[tactic(auto, unfolding(plan::specs::File::version_of, plan::specs::File::nodes_at))]
fn head_end(bytes: &[u8]) -> usize
    requires { 17 ≤ length bytes.now }
    ensures { result ≡ nodes_at (version_of bytes.now) + 12 }
{
    if read16(bytes, 3) == VERSION_1 {
        return HEADER_1;
    }
    HEADER
}

// The unknowns for each node: one in version 1, and else what the file says. O(1).
#[tactic(auto, unfolding(plan::specs::File::version_of, plan::specs::File::unknowns_in))]
fn read_unknowns(bytes: &[u8]) -> usize
    requires { 17 ≤ length bytes.now }
    ensures { result ≡ unknowns_in bytes.now }
{
    if read16(bytes, 3) == VERSION_1 {
        return 1;
    }
    read16(bytes, 5) as usize
}

// What a file's first bytes say, where they are all there, whatever the checks find. O(1).
pub fn read_head(bytes: &[u8]) -> Head
    requires { (17 ≤ length bytes.now) × (nodes_at (version_of bytes.now) + 12 ≤ length bytes.now) }
    ensures { HeadOf bytes.now result }
{
    let end = head_end(bytes);
    let unknowns = read_unknowns(bytes);
    let at = end - COUNTS;
    let nodes = read32(bytes, at) as usize;
    let parts = read32(bytes, at + 4) as usize;
    let slots = read32(bytes, at + 8) as usize;
    Head {
        end,
        unknowns,
        nodes,
        parts,
        slots,
    }
}

// Check 11: the mark is not NDP. O(1).
#[tactic(auto, unfolding(plan::specs::Reading::bad_magic))]
fn bad_magic(bytes: &[u8]) -> bool
    requires { 17 ≤ length bytes.now }
    ensures { result ≡ bad_magic bytes.now }
{
    bytes[..3] != MAGIC[..]
}

// Check 12: the version is neither 1 nor 2. O(1).
#[tactic(auto, unfolding(plan::specs::File::version_of, plan::specs::Reading::bad_version))]
fn bad_version(bytes: &[u8]) -> bool
    requires { 17 ≤ length bytes.now }
    ensures { result ≡ bad_version bytes.now }
{
    let version = read16(bytes, 3);
    version != VERSION_1 && version != VERSION
}

// Check 10 again: fewer than 19 bytes in a file of version 2. O(1).
#[tactic(auto, unfolding(plan::specs::File::version_of, plan::specs::Reading::too_few_in_version2))]
fn too_few_in_version_2(bytes: &[u8]) -> bool
    requires { 17 ≤ length bytes.now }
    ensures { result ≡ too_few_in_version2 bytes.now }
{
    read16(bytes, 3) == VERSION && bytes.len() < HEADER
}

// Check 13: n is not 1 to 4,096, p not 1 to n, or s above n(n − 1)/2. O(1).
#[tactic(auto, unfolding(plan::specs::File::bad_header))]
pub fn bad_header(n: usize, p: usize, s: usize) -> bool
    ensures { result ≡ bad_header (counts_only n p s) }
{
    if bad_node_count(n) {
        return true;
    }
    if p == 0 {
        return true;
    }
    if p > n {
        return true;
    }
    s > n * (n - 1) / 2
}

// The length of a file whose order stands behind so many bytes: 17 in version 1, 19 in version 2. O(1).
pub fn file_length(end: usize, n: usize, p: usize, s: usize) -> usize
    requires { (end ≤ 19) × (bad_header (counts_only n p s) ≡ false) }
    ensures { result ≡ end + 4 * n + 4 * p + 2 * s }
{
    end + 4 * n + 4 * p + 2 * s
}

// Check 14: the length is not that of the counts. O(1).
#[tactic(auto, unfolding(plan::specs::Reading::bad_length))]
fn bad_length(bytes: &[u8], head: &Head) -> bool
    requires head_of { HeadOf bytes.now head.now }
    requires counted { bad_header (parse bytes.now) ≡ false }
    ensures { result ≡ bad_length bytes.now }
{
    bytes.len() != file_length(head.end, head.nodes, head.parts, head.slots)
}

// Checks 10 to 14 and 28, and what the first bytes say where none found a fault. O(1).
#[tactic(auto, unfolding(plan::specs::Refusals::first_fault, plan::specs::Reading::header_checks, plan::specs::Reading::too_few_bytes), using(crate::proofs::Fields::head_inside, crate::proofs::Fields::head_counts))]
pub fn check_head(bytes: &[u8]) -> Result<Head, Refusal>
    ensures fault { fault_of result ≡ first_fault (header_checks bytes.now) }
    ensures says { IfOk result (λ head. HeadOf bytes.now head) }
{
    if bytes.len() < HEADER_1 {
        return Err(Refusal::TooFewBytes);
    }
    if bad_magic(bytes) {
        return Err(Refusal::Magic);
    }
    if bad_version(bytes) {
        return Err(Refusal::Version);
    }
    if too_few_in_version_2(bytes) {
        return Err(Refusal::TooFewBytes);
    }
    let head = read_head(bytes);
    if Plan::bad_unknowns(head.unknowns) {
        return Err(Refusal::Unknowns);
    }
    if bad_header(head.nodes, head.parts, head.slots) {
        return Err(Refusal::Header);
    }
    if bad_length(bytes, &head) {
        return Err(Refusal::FileLength);
    }
    Ok(head)
}

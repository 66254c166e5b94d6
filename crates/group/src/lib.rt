// Register groups: EMUL, fields, alignment, the overlap rule and the v0 rule, as tests.
// The tests are joined by `&` and `|`, as in the definitions: no branches.

#![tactic(auto)]

ghost use Rattle.std.specs.Prelude.{◌≡◌, ◌+◌, ◌≤◌, ◌<◌};
ghost use Rattle.group.specs.Group.{emul8_of, mask_group, registers_of, span_of, placed_of};
ghost use Rattle.group.specs.Group.{apart_of, highest_of, may_overlap_of, may_share_of, spares_v0};

// A group: its first register, EEW, and 8 * EMUL. Of a segment access, that of the first field: nf others of the kind follow it.
// No ghost field bounds `reg`: the definitions and theorem `FieldsApart` (machine) speak of every group.
#[derive(Clone, Copy)]
pub struct Group {
    pub reg: usize,
    pub eew: usize,
    pub emul8: u32,
    pub nf: u32,
}

// 8 * EMUL.
pub fn emul8(sew: usize, lmul8: usize, eew: usize) -> u32
    requires { (1 ≤ sew) × ((lmul8 ≤ 64) × (eew ≤ 2048)) }
    ensures { result ≡ emul8_of sew lmul8 eew }
{
    (eew * lmul8 / sew) as u32
}

// A mask register.
pub fn mask(reg: usize) -> Group
    ensures { result ≡ mask_group reg }
{
    Group {
        reg,
        eew: 1,
        emul8: 1,
        nf: 0,
    }
}

// How many registers a group has, or each of its fields: EMUL, and 1 where EMUL is below 1.
pub fn registers(group: Group) -> usize
    ensures { result ≡ registers_of group }
{
    if group.emul8 < 8 {
        return 1;
    }
    (group.emul8 / 8) as usize
}

// How many registers all fields have.
fn span(group: Group) -> usize
    ensures { result ≡ span_of group }
{
    (group.nf as usize + 1) * registers(group)
}

// Whether EEW and EMUL are in range, with all fields, the group starts at a multiple of EMUL, and none of its registers is past v31.
pub fn placed(elen: usize, group: Group) -> bool
    requires { group.reg < 32 }
    ensures { result ≡ placed_of elen group }
{
    (8 <= group.eew)
        & (group.eew <= elen)
        & (1 <= group.emul8)
        & ((group.nf as usize + 1) * (group.emul8 as usize) <= 64)
        & (group.reg % registers(group) == 0)
        & (end(group) <= 32)
}

// The register after the last one, of all fields.
fn end(group: Group) -> usize
    requires { group.reg < 32 }
    ensures { result ≡ group.reg + span_of group }
{
    group.reg + span(group)
}

// Whether a source is the destination's highest-numbered part, where both have one field.
fn highest(d: Group, s: Group) -> bool
    requires { (d.reg < 32) × (s.reg < 32) }
    ensures { result ≡ highest_of d s }
{
    s.reg + registers(s) == d.reg + registers(d)
}

// Whether two groups have no register in common.
pub fn apart(d: Group, s: Group) -> bool
    requires { (d.reg < 32) × (s.reg < 32) }
    ensures { result ≡ apart_of d s }
{
    (end(d) <= s.reg) | (end(s) <= d.reg)
}

// Whether a destination may overlap a source as it does.
pub fn may_overlap(d: Group, s: Group) -> bool
    requires { (d.reg < 32) × (s.reg < 32) }
    ensures { result ≡ may_overlap_of d s }
{
    apart(d, s)
        | ((d.nf == 0)
            & ((d.eew == s.eew)
                | ((d.eew < s.eew) & (d.reg == s.reg))
                | ((s.eew < d.eew) & highest(d, s) & (8 <= s.emul8))))
}

// Whether two sources may overlap as they do.
pub fn may_share(r: Group, s: Group) -> bool
    requires { (r.reg < 32) × (s.reg < 32) }
    ensures { result ≡ may_share_of r s }
{
    apart(r, s) | (r.eew == s.eew)
}

// Whether a destination keeps off v0 where v0 is the mask.
pub fn spares_v0(masked: bool, d: Group) -> bool
    ensures { result ≡ spares_v0 masked d }
{
    !masked | (d.reg != 0) | (d.eew == 1)
}

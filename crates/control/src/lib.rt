// The control record (vtype, vl, vstart, vxrm, vxsat, VS), and the board whose numbers its rules use.

#![tactic(auto)]

ghost use Rattle.std.specs.Prelude.{◌≡◌, ◌≤◌, ◌%◌, ◌*◌, cond};

// VLENB (the bytes of a vector register) and ELEN (the bits of the largest element). The two fit 8 bytes, so that a board is stored and
// loaded in one piece: stored in two and loaded in one it would delay each call.
#[derive(Clone, Copy, PartialEq, Eq)]
pub struct Board {
    pub vlenb: u32,
    pub elen: u32,
}

impl Board {
    // VLEN 128, ELEN 64.
    pub const BASE: Board = Board {
        vlenb: 16,
        elen: 64,
    };

    // VLEN 64, ELEN 32.
    pub const SMALL: Board = Board { vlenb: 8, elen: 32 };
}

// A hart on a board that can be (section 3: "each hart supporting a vector extension defines two parameters"): VLENB is a power of 2 and at
// most 16, ELEN at most 64 and at most VLEN. It stands beside a control record in many signatures and holds none: a call is handed a record
// that may be any (`possible` is asked of it), and the next record goes on with the same hart.
#[derive(Clone, Copy, PartialEq, Eq)]
pub struct Hart {
    pub board: Board,
    pub ghost some: { 1 ≤ board.vlenb },
    pub ghost most: { board.vlenb ≤ 16 },
    pub ghost divides: { 16 % board.vlenb ≡ 0 },
    pub ghost elen_most: { board.elen ≤ 64 },
    pub ghost within: { board.elen ≤ 8 * board.vlenb },
}

impl Hart {
    ghost use Rattle.control.specs.Board.{base, small};

    pub const BASE: Hart = Hart { board: Board::BASE };

    pub const SMALL: Hart = Hart {
        board: Board::SMALL,
    };

    // The same, for callers whose contracts name the board.
    pub fn base() -> Hart
        ensures { result.board ≡ base }
    {
        Hart::BASE
    }

    pub fn small() -> Hart
        ensures { result.board ≡ small }
    {
        Hart::SMALL
    }
}

// The control record (document 01, 'The machine on the screen'), with the status field VS of mstatus (document 02, A8): 0 Off, 1 Initial,
// 2 Clean, 3 Dirty. Each field is a number and no enum: a record handed in may hold any, and 36 refuses those that can't be
// (`possible_of`).
#[derive(Clone, Copy, PartialEq, Eq)]
pub struct Control {
    pub vtype: u64,
    pub vl: u64,
    pub vstart: u64,
    pub vxrm: u64,
    pub vxsat: u64,
    pub vs: u64,
}

impl Control {
    ghost use Rattle.control.specs.Vtype.{lmul8_of, sew_of, vlmax_of, supported_of};
    ghost use Rattle.control.specs.Control.{reset, with_vtype, with_vstart, with_vxrm, with_vxsat, with_vs, dirtied, is_off};
    ghost use Rattle.control.specs.Control.{vill_of, set_to, keeps_of, set_of, typed_well_of, possible_of};

    // vill alone.
    pub const VILL: u64 = 0x8000_0000_0000_0000;

    // vill, and VS Initial.
    pub const RESET: Control = Control {
        vtype: 0x8000_0000_0000_0000,
        vl: 0,
        vstart: 0,
        vxrm: 0,
        vxsat: 0,
        vs: 1,
    };

    // The same, for callers whose contracts name it.
    pub fn reset() -> Control
        ensures { result ≡ reset }
    {
        Control::RESET
    }

    // ---- the record with one thing changed

    // Another vtype and vl, which go together.
    pub fn with_vtype(self, vtype: u64, vl: u64) -> Control
        ensures { result ≡ with_vtype self vtype vl }
    {
        Control { vtype, vl, ..self }
    }

    // Another vstart.
    pub fn with_vstart(self, vstart: u64) -> Control
        ensures { result ≡ with_vstart self vstart }
    {
        Control { vstart, ..self }
    }

    // Another vxrm.
    pub fn with_vxrm(self, vxrm: u64) -> Control
        ensures { result ≡ with_vxrm self vxrm }
    {
        Control { vxrm, ..self }
    }

    // Another vxsat.
    pub fn with_vxsat(self, vxsat: u64) -> Control
        ensures { result ≡ with_vxsat self vxsat }
    {
        Control { vxsat, ..self }
    }

    // Another VS.
    pub fn with_vs(self, vs: u64) -> Control
        ensures { result ≡ with_vs self vs }
    {
        Control { vs, ..self }
    }

    // VS Dirty.
    pub fn dirtied(self) -> Control
        ensures { result ≡ dirtied self }
    {
        self.with_vs(3)
    }

    // Whether VS is Off.
    pub fn is_off(self) -> bool
        ensures { result ≡ is_off self }
    {
        self.vs == 0
    }

    // ---- vtype

    // 8 * LMUL; 0 at the reserved 100. By shifts and not from a table, which would be built on the stack at each call.
    pub fn lmul8(vtype: u64) -> u64
        ensures { result ≡ lmul8_of vtype }
    {
        let k = vtype % 8;
        if k < 4 {
            return 8 << k;
        }
        (1 << (k - 4)) / 2
    }

    // SEW. By a shift, so that a quotient by it is one too.
    pub fn sew(vtype: u64) -> u64
        ensures { result ≡ sew_of vtype }
    {
        8 << (vtype / 8 % 8)
    }

    // VLMAX = LMUL * VLEN / SEW.
    pub fn vlmax(hart: Hart, vtype: u64) -> u64
        ensures { result ≡ vlmax_of hart.board vtype }
    {
        Control::lmul8(vtype) * (hart.board.vlenb as u64) / Control::sew(vtype)
    }

    // Whether vtype is supported. `&` and `|` take both sides here and below, as the definitions do: there is no branch.
    pub fn supported(hart: Hart, vtype: u64) -> bool
        ensures { result ≡ supported_of hart.board vtype }
    {
        let elen = hart.board.elen as u64;
        let sew = Control::sew(vtype);
        let lmul8 = Control::lmul8(vtype);
        (vtype < 256)
            & (sew <= elen)
            & (vtype % 8 != 4)
            & ((8 <= lmul8) | (8 * sew <= elen * lmul8))
    }

    // vstart is 0 after a setting instruction.
    fn set_to(self, vtype: u64, vl: u64) -> Control
        ensures { result ≡ set_to self vtype vl }
    {
        self.with_vtype(vtype, vl).with_vstart(0)
    }

    // The record at a new vtype and vl where that is allowed, otherwise at vill.
    fn set_if(self, allowed: bool, vtype: u64, vl: u64) -> Control
        ensures { result ≡ cond allowed (set_to self vtype vl) (vill_of self) }
    {
        if allowed {
            self.set_to(vtype, vl)
        } else {
            self.set_to(Control::VILL, 0)
        }
    }

    // Whether vl may be kept at a new vtype.
    fn keeps(self, hart: Hart, vtype: u64) -> bool
        ensures { result ≡ keeps_of hart.board self vtype }
    {
        (self.vtype != Control::VILL)
            & (Control::vlmax(hart, self.vtype) == Control::vlmax(hart, vtype))
    }

    // The record after a setting instruction, which asks for an application vector length, or with none to keep vl.
    pub fn set(self, hart: Hart, vtype: u64, avl: Option<u64>) -> Control
        ensures { result ≡ set_of hart.board self vtype avl }
    {
        let supported = Control::supported(hart, vtype);
        match avl {
            Some(n) => self.set_if(supported, vtype, n.min(Control::vlmax(hart, vtype))),
            None => self.set_if(supported & self.keeps(hart, vtype), vtype, self.vl),
        }
    }

    // Whether vtype and vl can stand together.
    fn typed_well(self, hart: Hart) -> bool
        ensures { result ≡ typed_well_of hart.board self }
    {
        if self.vtype == Control::VILL {
            return self.vl == 0;
        }
        Control::supported(hart, self.vtype) & (self.vl <= Control::vlmax(hart, self.vtype))
    }

    // Whether the fields can be: answer 36 where not.
    pub fn possible(self, hart: Hart) -> bool
        ensures { result ≡ possible_of hart.board self }
    {
        self.typed_well(hart)
            & (self.vstart < 8 * (hart.board.vlenb as u64))
            & (self.vxrm <= 3)
            & (self.vxsat <= 1)
            & (self.vs <= 3)
    }
}

// ---- the record as numbers: vtype, vl, vstart, vxrm, vxsat, vs

impl From<Control> for [u64; 6] {
    ghost use Rattle.control.specs.Control.{fields_of};

    ghost from_gives = { λ c fields. fields ≡ fields_of c };

    fn from(c: Control) -> [u64; 6] {
        [c.vtype, c.vl, c.vstart, c.vxrm, c.vxsat, c.vs]
    }
}

impl From<[u64; 6]> for Control {
    ghost use Rattle.control.specs.Control.{record_of};

    ghost from_gives = { λ fields c. c ≡ record_of fields };

    fn from(fields: [u64; 6]) -> Control {
        let [vtype, vl, vstart, vxrm, vxsat, vs] = fields;
        Control {
            vtype,
            vl,
            vstart,
            vxrm,
            vxsat,
            vs,
        }
    }
}

// The fields of a file's records, as numbers, taken apart from its bytes.
ghost use Rattle.std.specs.Prelude.{◌≡◌, ℕ, ◌<◌, ◌≤◌, List, length, drop, MatchOption};
ghost use Rattle.program.specs.Fields.{node_fields_of, variable_fields_of, procedure_fields_of};

#[derive(Clone, Copy)]
pub struct NodeFields {
    pub kind: u8,
    pub sort: u8,
    pub a: u16,
    pub b: u16,
    pub c: u16,
    pub word: u32,
}

#[derive(Clone, Copy)]
pub struct VariableFields {
    pub role: u8,
    pub data_type: u8,
    pub owner: u16,
    pub level: u32,
}

#[derive(Clone, Copy)]
pub struct ProcedureFields {
    pub result: u8,
    pub parameters: u8,
    pub first_parameter: u16,
    pub body: u16,
    pub spare: u16,
    pub level: u32,
}

// The fields of a record of so many bytes, from the front of a list of bytes.
pub trait Record {
    ghost size: { ℕ };

    ghost fields_of: { List ℕ → Self };

    // The fields of the record at the front of `bytes`, and what follows it.
    fn split(bytes: &[u8]) -> Option<(Self, &[u8])>
        ensures { MatchOption result (length bytes.now < size) (λ p. (size ≤ length bytes.now) × (p.0 ≡ fields_of bytes.now) × (p.1.now ≡ drop size bytes.now)) };
}

impl Record for NodeFields {
    ghost size = { 12 };

    ghost fields_of = { node_fields_of };

    fn split(bytes: &[u8]) -> Option<(Self, &[u8])> {
        let [
            kind,
            sort,
            a1,
            a0,
            b1,
            b0,
            c1,
            c0,
            w3,
            w2,
            w1,
            w0,
            rest @ ..,
        ] = bytes
        else {
            return None;
        };
        let fields = NodeFields {
            kind: *kind,
            sort: *sort,
            a: u16::from_be_bytes([*a1, *a0]),
            b: u16::from_be_bytes([*b1, *b0]),
            c: u16::from_be_bytes([*c1, *c0]),
            word: u32::from_be_bytes([*w3, *w2, *w1, *w0]),
        };
        Some((fields, rest))
    }
}

impl Record for VariableFields {
    ghost size = { 8 };

    ghost fields_of = { variable_fields_of };

    fn split(bytes: &[u8]) -> Option<(Self, &[u8])> {
        let [role, data_type, o1, o0, l3, l2, l1, l0, rest @ ..] = bytes else {
            return None;
        };
        let fields = VariableFields {
            role: *role,
            data_type: *data_type,
            owner: u16::from_be_bytes([*o1, *o0]),
            level: u32::from_be_bytes([*l3, *l2, *l1, *l0]),
        };
        Some((fields, rest))
    }
}

impl Record for ProcedureFields {
    ghost size = { 12 };

    ghost fields_of = { procedure_fields_of };

    fn split(bytes: &[u8]) -> Option<(Self, &[u8])> {
        let [
            result,
            parameters,
            f1,
            f0,
            b1,
            b0,
            s1,
            s0,
            l3,
            l2,
            l1,
            l0,
            rest @ ..,
        ] = bytes
        else {
            return None;
        };
        let fields = ProcedureFields {
            result: *result,
            parameters: *parameters,
            first_parameter: u16::from_be_bytes([*f1, *f0]),
            body: u16::from_be_bytes([*b1, *b0]),
            spare: u16::from_be_bytes([*s1, *s0]),
            level: u32::from_be_bytes([*l3, *l2, *l1, *l0]),
        };
        Some((fields, rest))
    }
}

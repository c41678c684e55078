// Why a file is refused: one variant for each row of the check, with the number of the record at fault. An answer prints its
// two numbers; nobody prints it by itself, so it has no Display.
ghost use Rattle.std.specs.Prelude.{◌≡◌};
ghost use Rattle.program.specs.Refusals.{row_number, place_number};

#[derive(Clone, Copy, PartialEq, Eq, Debug)]
pub enum Refusal {
    Closing,
    Places,
    Counts,
    Variable(u16),
    Result(u16),
    Parameters(u16),
    Body(u16),
    Main(u16),
    Record(u16),
    Child(u16),
    Scope(u16),
    Call(u16),
    DataType(u16),
    Level(u16),
    Exits(u16),
    Naming(u16),
}

// Two numbers of one refusal, and so methods: a conversion could give only one.
impl Refusal {
    // The number of the row.
    pub fn row(self) -> u8
        ensures { result ≡ row_number self }
    {
        match self {
            Refusal::Closing => 1,
            Refusal::Places => 2,
            Refusal::Counts => 3,
            Refusal::Variable(_) => 4,
            Refusal::Result(_) => 5,
            Refusal::Parameters(_) => 6,
            Refusal::Body(_) => 7,
            Refusal::Main(_) => 8,
            Refusal::Record(_) => 10,
            Refusal::Child(_) => 11,
            Refusal::Scope(_) => 12,
            Refusal::Call(_) => 13,
            Refusal::DataType(_) => 14,
            Refusal::Level(_) => 15,
            Refusal::Exits(_) => 16,
            Refusal::Naming(_) => 17,
        }
    }

    // The number of the variable, procedure or node at fault, or 0 where the file as a whole is, as an answer shows it.
    pub fn place(self) -> u16
        ensures { result ≡ place_number self }
    {
        match self {
            Refusal::Closing | Refusal::Places | Refusal::Counts => 0,
            Refusal::Variable(place)
            | Refusal::Result(place)
            | Refusal::Parameters(place)
            | Refusal::Body(place)
            | Refusal::Main(place)
            | Refusal::Record(place)
            | Refusal::Child(place)
            | Refusal::Scope(place)
            | Refusal::Call(place)
            | Refusal::DataType(place)
            | Refusal::Level(place)
            | Refusal::Exits(place)
            | Refusal::Naming(place) => place,
        }
    }
}

//! The alphabet of the services of a vehicle's diagnosis.
ghost use Rattle.alphabets.specs.Services.{service};
ghost use Rattle.alphabets.specs.Sounds.{service_sound};

use crate::Alphabet;
use bitsets::SmallSet;

/// How many letters there are.
const LETTERS: u8 = 16;

/// The first number past the sets of letters.
const SETS: u32 = 65_536;

/// The name of each letter: a service of ISO 14229-1, or the answer that refuses one.
const NAMES: [&[u8]; LETTERS as usize] = [
    b"alive", // TesterPresent: the tester is still there
    b"session", // DiagnosticSessionControl: change what the unit allows
    b"reset", // ECUReset: restart the unit
    b"clear", // ClearDiagnosticInformation: forget the trouble codes
    b"codes", // ReadDTCInformation: report the trouble codes
    b"read", // ReadDataByIdentifier: report a value
    b"unlock", // SecurityAccess: ask for the seed or send the key
    b"quiet", // CommunicationControl: stop or allow messages
    b"write", // WriteDataByIdentifier: store a value
    b"drive", // InputOutputControlByIdentifier: take over an input or output
    b"routine", // RoutineControl: start, stop or ask a routine
    b"download", // RequestDownload: announce data for the unit
    b"transfer", // TransferData: send one block of it
    b"exit", // RequestTransferExit: end the transfer
    b"codeset", // ControlDTCSetting: record trouble codes or not
    b"refused", // NegativeResponse: the unit refuses a request
];

/// The services of a vehicle's diagnosis. A code is a set of letters, letter k counting 2^k, and valid from 1 to 65,535.
#[derive(Clone, Copy, PartialEq, Eq, Debug)]
pub struct Service;

impl Alphabet for Service {
    ghost meaning = { λ _. service };

    ghost sound = { λ a. service_sound };

    fn letters(&self) -> u8 {
        LETTERS
    }

    fn valid(&self, code: u32) -> bool {
        (1..SETS).contains(&code)
    }

    fn holds(&self, code: u32, letter: u8) -> bool {
        let set = SmallSet {
            bits: u64::from(code),
        };
        self.valid(code) && set.holds(letter)
    }

    fn letter(&self, name: &[u8]) -> Option<u8> {
        NAMES
            .iter()
            .position(|known| name == *known)
            .map(|k| k as u8)
    }
}

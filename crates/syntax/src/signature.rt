// The symbols of a problem in numbering order.
ghost use Rattle.std.specs.Prelude.{◌≡◌, not, [], ◌∷◌, ◌++◌, map, ◌+◌, ◌<◌, ◌≤◌, take};
ghost use Rattle.std.specs.List.{prefix_len};
ghost use Rattle.syntax.specs.Signatures.{max_in_all, arities_of, without_helpers};

use crate::limits::Problem;

// A function or a predicate, whether it is a helper or declared, and the place and length of its name in the sheet.
#[derive(Clone, Copy, Default)]
pub struct Symbol {
    pub function: bool,
    pub helper: bool,
    pub arity: u8,
    pub name: usize,
    pub length: usize,
}

#[derive(Clone, Copy)]
pub struct Signature {
    pub symbols: [Symbol; Problem::MAX_SYMBOLS],
    pub count: usize,
}

impl Signature {
    pub fn empty() -> Signature
        ensures { result.count ≡ 0 }
    {
        Signature {
            symbols: [Symbol::default(); Problem::MAX_SYMBOLS],
            count: 0,
        }
    }

    // The signature with one symbol more.
    pub fn with(mut self, symbol: Symbol) -> Signature
        requires { self.count < max_in_all }
        ensures count { result.count ≡ self.count + 1 }
        ensures symbols { take result.count result.symbols ≡ take self.count self.symbols ++ (symbol ∷ []) }
    {
        let i = self.count;
        self.symbols[i] = symbol;
        self.count = i + 1;
        self
    }

    // The arity of each symbol, 0 past the last.
    pub fn arities(self) -> [u8; Problem::MAX_SYMBOLS]
        requires { self.count ≤ max_in_all }
        ensures { take self.count result ≡ arities_of (take self.count self.symbols) }
    {
        let mut arities = [0; Problem::MAX_SYMBOLS];
        for i in 0..self.count {
            arities[i] = self.symbols[i].arity;
        }
        arities
    }

    // The declared symbols: those before the first helper.
    pub fn declared(mut self) -> Signature
        requires { self.count ≤ max_in_all }
        ensures { result ≡ without_helpers self }
    {
        self.count = self.declared_count();
        self
    }

    // How many they are.
    fn declared_count(self) -> usize
        requires { self.count ≤ max_in_all }
        ensures { result ≡ prefix_len (λ y. not y.helper) (take self.count self.symbols) }
    {
        self.symbols[..self.count]
            .iter()
            .take_while(|symbol| !symbol.helper)
            .count()
    }
}

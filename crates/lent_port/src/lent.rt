// A loan whose type keeps whose it is.
ghost use Rattle.std.specs.Prelude.{◌≡◌, ℕ};

use crate::loan::Loan;
use image_device::{Device, Failed, Port, WorkDone};
use std::marker::{Brand, PhantomData};

/// Whose reference a loan holds, which proofs pick.
pub trait Lender {
    ghost name: { ℕ };
}

impl Lender for Brand {
    ghost name = { 0 };
}

/// A loan of this lender, also through code that knows it as a port alone.
#[derive(Drop)]
pub struct Lent<'a, P: Port, K: Lender> {
    loan: Loan<'a, P>,
    lender: PhantomData<K>,
    ghost is: { loan.port.ghost_name ≡ K.name },
}

impl<'a, P: Port, K: Lender> Lent<'a, P, K> {
    /// Takes a loan of the lender that proofs pick.
    pub fn new(loan: Loan<'a, P>) -> Lent<'a, P, K>
        requires { loan.port.ghost_name ≡ K.name }
        ensures { result.loan.port.now ≡ loan.entry.port.now }
    {
        Lent {
            loan,
            lender: PhantomData,
        }
    }

    /// Gives the loan back: it is one of that lender.
    pub fn into_loan(self) -> Loan<'a, P>
        /// promise (with port): The port that comes back is the one that was lent, as the calls left it.
        ensures lender { result.port.ghost_name ≡ K.name }
        ensures port { result.port.now ≡ self.entry.loan.port.now }
    {
        let Lent { loan, lender: _ } = self;
        loan
    }
}

impl<'a, P: Port, K: Lender> Device for Lent<'a, P, K> {
    ghost told = { P.told };

    ghost view = { λ l. P.view l.loan.port.now };

    ghost sound = { λ l told. P.sound l.loan.port.now told };

    fn read(&mut self, sector: u32, into: &mut [u8; 512]) -> Result<(), Failed> {
        self.loan.read(sector, into)
    }

    fn write(&mut self, sector: u32, from: &[u8; 512]) -> Result<(), Failed> {
        self.loan.write(sector, from)
    }

    fn sync(&mut self) -> Result<(), Failed> {
        self.loan.sync()
    }

    fn show_work_done(&self, done: WorkDone) {
        self.loan.show_work_done(done);
    }
}

impl<'a, P: Port, K: Lender> Port for Lent<'a, P, K> {
    fn put(&mut self, piece: &[u8]) -> Result<usize, Failed> {
        self.loan.put(piece)
    }
}

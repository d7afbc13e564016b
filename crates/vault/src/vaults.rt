// A vault over a register of any kind.
use crate::kinds::VaultKind;
use crate::ledger::Ledger;
use crate::vaults::kept::Kept;
use register::registers::Register;
use std::marker::Model;

pub mod asking;
mod kept;
pub mod lending;
pub mod register_calls;
mod settling;
pub mod tables;

// It owns its register, keeps the verdicts of the certificate that stands, if one does, and has its ledger of leases.
// All memory is taken at the making.
#[derive(Drop)]
pub struct Vault<R: Register, K: VaultKind> {
    kind: K,
    number: u16,
    register: R,
    kept: Kept,
    ledger: Ledger,
}

// What it holds, as its history has it.
impl<R: Register, K: VaultKind> Model for Vault<R, K> {
    ghost use Rattle.history.specs.Contents.{Contents};

    ghost Value = { Contents };

    ghost use Rattle.vault.specs.Keeping.{kept_by};
    ghost use Rattle.vault.specs.Ledgers.{posted};

    ghost view = { λ v. record {
      kind = K.VaultKind.kind;
      number = v.number;
      capacity = R.Register.CAPACITY;
      list = R.Source.list v.register;
      kept = kept_by v.kept;
      figures = (posted v.ledger).figures;
      book = (posted v.ledger).book;
    } };
}

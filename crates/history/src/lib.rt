// The law over a vault's whole history, and what follows from it: specs/ says both.
#![tactic(auto)]

ghost use Rattle.history.specs.Contents.{MakingKeeps};
ghost use Rattle.history.specs.Example.{Example};
ghost use Rattle.history.specs.Promise.{PromiseMet, AgreementMet};
ghost use Rattle.history.specs.Statement.{StatementsFit};
ghost use Rattle.history.specs.Steps.{CallsKeep, ContentsSay, StepsKeep};
ghost use Rattle.history.specs.Theorems.{Balances, SerialsRise, LimitsKept, NumbersTell, OneAnswer, SomeAnswer, OffersFollow, RefusalsFollow, TablesModel, FilledIsAdopted};

// Every lease is declined, handed back or open; serials rise by one; no limit is passed.
pub fn counts_hold()
    ensures balances { Balances }
    ensures serials { SerialsRise }
    ensures limits { LimitsKept }
{}

// One answer is due to each call, and offers, refusals and tables follow the model.
pub fn answers_hold()
    ensures numbers { NumbersTell }
    ensures one { OneAnswer }
    ensures some { SomeAnswer }
    ensures offers { OffersFollow }
    ensures refusals { RefusalsFollow }
    ensures tables { TablesModel }
    ensures vaults { FilledIsAdopted }
{}

// A vault's contents agree with its history from the making on, call by call, and say what the law judges by.
pub fn contents_hold()
    ensures making { MakingKeeps }
    ensures calls { CallsKeep }
    ensures words { ContentsSay }
    ensures steps { StepsKeep }
{}

// Contents that agree with a history meet the whole promise about it, two vaults agree, and every statement fits its buffer.
pub fn promise_holds()
    ensures met { PromiseMet }
    ensures agreement { AgreementMet }
    ensures room { StatementsFit }
{}

// A worked history conforms, and its statement has two lines.
pub fn example_holds()
    ensures { Example }
{}

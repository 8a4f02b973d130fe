// The exemptions, an entry for each rulebook, contract type, kind, instruction and purpose. No other place of the code
// has them.
ghost use Rattle.std.specs.Prelude.{◌≡◌, true};
ghost use Rattle.exemptions.specs.Sheet.{sheet_right};

// How many entries there are: 2 rulebooks, 2 contract types, 3 kinds, 6 instructions, 4 purposes.
pub const ENTRIES: usize = 288;

// The clause: 0 not exempt, 1 by instruction, 2 by purpose, 3 by both. What rulebook 2 (CFX) refuses, an option, a stop
// order or an arbitrage order, is 1 whatever its purpose.
const SHEET: [u8; ENTRIES] = [
    0, // DCE, futures, self-trade, plain limit, ordinary
    2, // DCE, futures, self-trade, plain limit, hedge
    2, // DCE, futures, self-trade, plain limit, arbitrage
    0, // DCE, futures, self-trade, plain limit, market making
    1, // DCE, futures, self-trade, market, ordinary
    3, // DCE, futures, self-trade, market, hedge
    3, // DCE, futures, self-trade, market, arbitrage
    1, // DCE, futures, self-trade, market, market making
    1, // DCE, futures, self-trade, stop, ordinary
    3, // DCE, futures, self-trade, stop, hedge
    3, // DCE, futures, self-trade, stop, arbitrage
    1, // DCE, futures, self-trade, stop, market making
    1, // DCE, futures, self-trade, arbitrage order, ordinary
    3, // DCE, futures, self-trade, arbitrage order, hedge
    3, // DCE, futures, self-trade, arbitrage order, arbitrage
    1, // DCE, futures, self-trade, arbitrage order, market making
    1, // DCE, futures, self-trade, FOK, ordinary
    3, // DCE, futures, self-trade, FOK, hedge
    3, // DCE, futures, self-trade, FOK, arbitrage
    1, // DCE, futures, self-trade, FOK, market making
    1, // DCE, futures, self-trade, FAK, ordinary
    3, // DCE, futures, self-trade, FAK, hedge
    3, // DCE, futures, self-trade, FAK, arbitrage
    1, // DCE, futures, self-trade, FAK, market making
    0, // DCE, futures, frequent cancels, plain limit, ordinary
    2, // DCE, futures, frequent cancels, plain limit, hedge
    2, // DCE, futures, frequent cancels, plain limit, arbitrage
    0, // DCE, futures, frequent cancels, plain limit, market making
    1, // DCE, futures, frequent cancels, market, ordinary
    3, // DCE, futures, frequent cancels, market, hedge
    3, // DCE, futures, frequent cancels, market, arbitrage
    1, // DCE, futures, frequent cancels, market, market making
    1, // DCE, futures, frequent cancels, stop, ordinary
    3, // DCE, futures, frequent cancels, stop, hedge
    3, // DCE, futures, frequent cancels, stop, arbitrage
    1, // DCE, futures, frequent cancels, stop, market making
    1, // DCE, futures, frequent cancels, arbitrage order, ordinary
    3, // DCE, futures, frequent cancels, arbitrage order, hedge
    3, // DCE, futures, frequent cancels, arbitrage order, arbitrage
    1, // DCE, futures, frequent cancels, arbitrage order, market making
    1, // DCE, futures, frequent cancels, FOK, ordinary
    3, // DCE, futures, frequent cancels, FOK, hedge
    3, // DCE, futures, frequent cancels, FOK, arbitrage
    1, // DCE, futures, frequent cancels, FOK, market making
    1, // DCE, futures, frequent cancels, FAK, ordinary
    3, // DCE, futures, frequent cancels, FAK, hedge
    3, // DCE, futures, frequent cancels, FAK, arbitrage
    1, // DCE, futures, frequent cancels, FAK, market making
    0, // DCE, futures, large cancels, plain limit, ordinary
    2, // DCE, futures, large cancels, plain limit, hedge
    2, // DCE, futures, large cancels, plain limit, arbitrage
    0, // DCE, futures, large cancels, plain limit, market making
    1, // DCE, futures, large cancels, market, ordinary
    3, // DCE, futures, large cancels, market, hedge
    3, // DCE, futures, large cancels, market, arbitrage
    1, // DCE, futures, large cancels, market, market making
    1, // DCE, futures, large cancels, stop, ordinary
    3, // DCE, futures, large cancels, stop, hedge
    3, // DCE, futures, large cancels, stop, arbitrage
    1, // DCE, futures, large cancels, stop, market making
    1, // DCE, futures, large cancels, arbitrage order, ordinary
    3, // DCE, futures, large cancels, arbitrage order, hedge
    3, // DCE, futures, large cancels, arbitrage order, arbitrage
    1, // DCE, futures, large cancels, arbitrage order, market making
    1, // DCE, futures, large cancels, FOK, ordinary
    3, // DCE, futures, large cancels, FOK, hedge
    3, // DCE, futures, large cancels, FOK, arbitrage
    1, // DCE, futures, large cancels, FOK, market making
    1, // DCE, futures, large cancels, FAK, ordinary
    3, // DCE, futures, large cancels, FAK, hedge
    3, // DCE, futures, large cancels, FAK, arbitrage
    1, // DCE, futures, large cancels, FAK, market making
    0, // DCE, option, self-trade, plain limit, ordinary
    2, // DCE, option, self-trade, plain limit, hedge
    2, // DCE, option, self-trade, plain limit, arbitrage
    0, // DCE, option, self-trade, plain limit, market making
    1, // DCE, option, self-trade, market, ordinary
    3, // DCE, option, self-trade, market, hedge
    3, // DCE, option, self-trade, market, arbitrage
    1, // DCE, option, self-trade, market, market making
    1, // DCE, option, self-trade, stop, ordinary
    3, // DCE, option, self-trade, stop, hedge
    3, // DCE, option, self-trade, stop, arbitrage
    1, // DCE, option, self-trade, stop, market making
    1, // DCE, option, self-trade, arbitrage order, ordinary
    3, // DCE, option, self-trade, arbitrage order, hedge
    3, // DCE, option, self-trade, arbitrage order, arbitrage
    1, // DCE, option, self-trade, arbitrage order, market making
    1, // DCE, option, self-trade, FOK, ordinary
    3, // DCE, option, self-trade, FOK, hedge
    3, // DCE, option, self-trade, FOK, arbitrage
    1, // DCE, option, self-trade, FOK, market making
    1, // DCE, option, self-trade, FAK, ordinary
    3, // DCE, option, self-trade, FAK, hedge
    3, // DCE, option, self-trade, FAK, arbitrage
    1, // DCE, option, self-trade, FAK, market making
    0, // DCE, option, frequent cancels, plain limit, ordinary
    2, // DCE, option, frequent cancels, plain limit, hedge
    2, // DCE, option, frequent cancels, plain limit, arbitrage
    2, // DCE, option, frequent cancels, plain limit, market making
    1, // DCE, option, frequent cancels, market, ordinary
    3, // DCE, option, frequent cancels, market, hedge
    3, // DCE, option, frequent cancels, market, arbitrage
    3, // DCE, option, frequent cancels, market, market making
    1, // DCE, option, frequent cancels, stop, ordinary
    3, // DCE, option, frequent cancels, stop, hedge
    3, // DCE, option, frequent cancels, stop, arbitrage
    3, // DCE, option, frequent cancels, stop, market making
    1, // DCE, option, frequent cancels, arbitrage order, ordinary
    3, // DCE, option, frequent cancels, arbitrage order, hedge
    3, // DCE, option, frequent cancels, arbitrage order, arbitrage
    3, // DCE, option, frequent cancels, arbitrage order, market making
    1, // DCE, option, frequent cancels, FOK, ordinary
    3, // DCE, option, frequent cancels, FOK, hedge
    3, // DCE, option, frequent cancels, FOK, arbitrage
    3, // DCE, option, frequent cancels, FOK, market making
    1, // DCE, option, frequent cancels, FAK, ordinary
    3, // DCE, option, frequent cancels, FAK, hedge
    3, // DCE, option, frequent cancels, FAK, arbitrage
    3, // DCE, option, frequent cancels, FAK, market making
    0, // DCE, option, large cancels, plain limit, ordinary
    2, // DCE, option, large cancels, plain limit, hedge
    2, // DCE, option, large cancels, plain limit, arbitrage
    0, // DCE, option, large cancels, plain limit, market making
    1, // DCE, option, large cancels, market, ordinary
    3, // DCE, option, large cancels, market, hedge
    3, // DCE, option, large cancels, market, arbitrage
    1, // DCE, option, large cancels, market, market making
    1, // DCE, option, large cancels, stop, ordinary
    3, // DCE, option, large cancels, stop, hedge
    3, // DCE, option, large cancels, stop, arbitrage
    1, // DCE, option, large cancels, stop, market making
    1, // DCE, option, large cancels, arbitrage order, ordinary
    3, // DCE, option, large cancels, arbitrage order, hedge
    3, // DCE, option, large cancels, arbitrage order, arbitrage
    1, // DCE, option, large cancels, arbitrage order, market making
    1, // DCE, option, large cancels, FOK, ordinary
    3, // DCE, option, large cancels, FOK, hedge
    3, // DCE, option, large cancels, FOK, arbitrage
    1, // DCE, option, large cancels, FOK, market making
    1, // DCE, option, large cancels, FAK, ordinary
    3, // DCE, option, large cancels, FAK, hedge
    3, // DCE, option, large cancels, FAK, arbitrage
    1, // DCE, option, large cancels, FAK, market making
    0, // CFX, futures, self-trade, plain limit, ordinary
    2, // CFX, futures, self-trade, plain limit, hedge
    0, // CFX, futures, self-trade, plain limit, arbitrage
    0, // CFX, futures, self-trade, plain limit, market making
    1, // CFX, futures, self-trade, market, ordinary
    3, // CFX, futures, self-trade, market, hedge
    1, // CFX, futures, self-trade, market, arbitrage
    1, // CFX, futures, self-trade, market, market making
    1, // CFX, futures, self-trade, stop, ordinary
    1, // CFX, futures, self-trade, stop, hedge
    1, // CFX, futures, self-trade, stop, arbitrage
    1, // CFX, futures, self-trade, stop, market making
    1, // CFX, futures, self-trade, arbitrage order, ordinary
    1, // CFX, futures, self-trade, arbitrage order, hedge
    1, // CFX, futures, self-trade, arbitrage order, arbitrage
    1, // CFX, futures, self-trade, arbitrage order, market making
    0, // CFX, futures, self-trade, FOK, ordinary
    2, // CFX, futures, self-trade, FOK, hedge
    0, // CFX, futures, self-trade, FOK, arbitrage
    0, // CFX, futures, self-trade, FOK, market making
    0, // CFX, futures, self-trade, FAK, ordinary
    2, // CFX, futures, self-trade, FAK, hedge
    0, // CFX, futures, self-trade, FAK, arbitrage
    0, // CFX, futures, self-trade, FAK, market making
    1, // CFX, futures, frequent cancels, plain limit, ordinary
    3, // CFX, futures, frequent cancels, plain limit, hedge
    3, // CFX, futures, frequent cancels, plain limit, arbitrage
    3, // CFX, futures, frequent cancels, plain limit, market making
    1, // CFX, futures, frequent cancels, market, ordinary
    3, // CFX, futures, frequent cancels, market, hedge
    3, // CFX, futures, frequent cancels, market, arbitrage
    3, // CFX, futures, frequent cancels, market, market making
    1, // CFX, futures, frequent cancels, stop, ordinary
    1, // CFX, futures, frequent cancels, stop, hedge
    1, // CFX, futures, frequent cancels, stop, arbitrage
    1, // CFX, futures, frequent cancels, stop, market making
    1, // CFX, futures, frequent cancels, arbitrage order, ordinary
    1, // CFX, futures, frequent cancels, arbitrage order, hedge
    1, // CFX, futures, frequent cancels, arbitrage order, arbitrage
    1, // CFX, futures, frequent cancels, arbitrage order, market making
    0, // CFX, futures, frequent cancels, FOK, ordinary
    2, // CFX, futures, frequent cancels, FOK, hedge
    2, // CFX, futures, frequent cancels, FOK, arbitrage
    2, // CFX, futures, frequent cancels, FOK, market making
    0, // CFX, futures, frequent cancels, FAK, ordinary
    2, // CFX, futures, frequent cancels, FAK, hedge
    2, // CFX, futures, frequent cancels, FAK, arbitrage
    2, // CFX, futures, frequent cancels, FAK, market making
    0, // CFX, futures, large cancels, plain limit, ordinary
    2, // CFX, futures, large cancels, plain limit, hedge
    2, // CFX, futures, large cancels, plain limit, arbitrage
    0, // CFX, futures, large cancels, plain limit, market making
    1, // CFX, futures, large cancels, market, ordinary
    3, // CFX, futures, large cancels, market, hedge
    3, // CFX, futures, large cancels, market, arbitrage
    1, // CFX, futures, large cancels, market, market making
    1, // CFX, futures, large cancels, stop, ordinary
    1, // CFX, futures, large cancels, stop, hedge
    1, // CFX, futures, large cancels, stop, arbitrage
    1, // CFX, futures, large cancels, stop, market making
    1, // CFX, futures, large cancels, arbitrage order, ordinary
    1, // CFX, futures, large cancels, arbitrage order, hedge
    1, // CFX, futures, large cancels, arbitrage order, arbitrage
    1, // CFX, futures, large cancels, arbitrage order, market making
    0, // CFX, futures, large cancels, FOK, ordinary
    2, // CFX, futures, large cancels, FOK, hedge
    2, // CFX, futures, large cancels, FOK, arbitrage
    0, // CFX, futures, large cancels, FOK, market making
    0, // CFX, futures, large cancels, FAK, ordinary
    2, // CFX, futures, large cancels, FAK, hedge
    2, // CFX, futures, large cancels, FAK, arbitrage
    0, // CFX, futures, large cancels, FAK, market making
    1, // CFX, option, self-trade, plain limit, ordinary
    1, // CFX, option, self-trade, plain limit, hedge
    1, // CFX, option, self-trade, plain limit, arbitrage
    1, // CFX, option, self-trade, plain limit, market making
    1, // CFX, option, self-trade, market, ordinary
    1, // CFX, option, self-trade, market, hedge
    1, // CFX, option, self-trade, market, arbitrage
    1, // CFX, option, self-trade, market, market making
    1, // CFX, option, self-trade, stop, ordinary
    1, // CFX, option, self-trade, stop, hedge
    1, // CFX, option, self-trade, stop, arbitrage
    1, // CFX, option, self-trade, stop, market making
    1, // CFX, option, self-trade, arbitrage order, ordinary
    1, // CFX, option, self-trade, arbitrage order, hedge
    1, // CFX, option, self-trade, arbitrage order, arbitrage
    1, // CFX, option, self-trade, arbitrage order, market making
    1, // CFX, option, self-trade, FOK, ordinary
    1, // CFX, option, self-trade, FOK, hedge
    1, // CFX, option, self-trade, FOK, arbitrage
    1, // CFX, option, self-trade, FOK, market making
    1, // CFX, option, self-trade, FAK, ordinary
    1, // CFX, option, self-trade, FAK, hedge
    1, // CFX, option, self-trade, FAK, arbitrage
    1, // CFX, option, self-trade, FAK, market making
    1, // CFX, option, frequent cancels, plain limit, ordinary
    1, // CFX, option, frequent cancels, plain limit, hedge
    1, // CFX, option, frequent cancels, plain limit, arbitrage
    1, // CFX, option, frequent cancels, plain limit, market making
    1, // CFX, option, frequent cancels, market, ordinary
    1, // CFX, option, frequent cancels, market, hedge
    1, // CFX, option, frequent cancels, market, arbitrage
    1, // CFX, option, frequent cancels, market, market making
    1, // CFX, option, frequent cancels, stop, ordinary
    1, // CFX, option, frequent cancels, stop, hedge
    1, // CFX, option, frequent cancels, stop, arbitrage
    1, // CFX, option, frequent cancels, stop, market making
    1, // CFX, option, frequent cancels, arbitrage order, ordinary
    1, // CFX, option, frequent cancels, arbitrage order, hedge
    1, // CFX, option, frequent cancels, arbitrage order, arbitrage
    1, // CFX, option, frequent cancels, arbitrage order, market making
    1, // CFX, option, frequent cancels, FOK, ordinary
    1, // CFX, option, frequent cancels, FOK, hedge
    1, // CFX, option, frequent cancels, FOK, arbitrage
    1, // CFX, option, frequent cancels, FOK, market making
    1, // CFX, option, frequent cancels, FAK, ordinary
    1, // CFX, option, frequent cancels, FAK, hedge
    1, // CFX, option, frequent cancels, FAK, arbitrage
    1, // CFX, option, frequent cancels, FAK, market making
    1, // CFX, option, large cancels, plain limit, ordinary
    1, // CFX, option, large cancels, plain limit, hedge
    1, // CFX, option, large cancels, plain limit, arbitrage
    1, // CFX, option, large cancels, plain limit, market making
    1, // CFX, option, large cancels, market, ordinary
    1, // CFX, option, large cancels, market, hedge
    1, // CFX, option, large cancels, market, arbitrage
    1, // CFX, option, large cancels, market, market making
    1, // CFX, option, large cancels, stop, ordinary
    1, // CFX, option, large cancels, stop, hedge
    1, // CFX, option, large cancels, stop, arbitrage
    1, // CFX, option, large cancels, stop, market making
    1, // CFX, option, large cancels, arbitrage order, ordinary
    1, // CFX, option, large cancels, arbitrage order, hedge
    1, // CFX, option, large cancels, arbitrage order, arbitrage
    1, // CFX, option, large cancels, arbitrage order, market making
    1, // CFX, option, large cancels, FOK, ordinary
    1, // CFX, option, large cancels, FOK, hedge
    1, // CFX, option, large cancels, FOK, arbitrage
    1, // CFX, option, large cancels, FOK, market making
    1, // CFX, option, large cancels, FAK, ordinary
    1, // CFX, option, large cancels, FAK, hedge
    1, // CFX, option, large cancels, FAK, arbitrage
    1, // CFX, option, large cancels, FAK, market making
];

// The table. Its contract is its rule: every entry is what the clauses say of its codes.
pub(crate) fn sheet() -> [u8; ENTRIES]
    ensures { sheet_right result ≡ true }
{
    SHEET
}

//! The rows of the tables. Fields of a row are parted by semicolons.

/// Lists that are runs: what is special about it, the instructions of each core, how many stores of a core may be
/// pending, the steps, and what stands behind them.
pub(super) const RUNS: &str = "\
both load before the stores drain; x=1 eax=y hlt | y=1 eax=x hlt; 1; \
0 plain, 1 plain, 0 plain, 1 plain, 0 drained, 0 halted, 1 drained, 1 halted; \
eax=0 eip=10f Halt, eax=0 eip=11f Halt, x=1 y=1
with room for no store they are in memory at once; x=1 eax=y hlt | y=1 eax=x hlt; 0; \
0 plain, 1 plain, 0 plain, 1 plain, 0 halted, 0 idle, 1 halted, 1 idle; \
eax=1 eip=10f Halt, eax=1 eip=11f Halt, x=1 y=1
a drain by itself comes between; x=1 eax=y hlt | y=1 eax=x hlt; 1; \
0 plain, 1 plain, 0 plain, 0 drained, 1 plain, 1 drained, 1 halted; \
eax=0 eip=10f, eax=1 eip=11f Halt, x=1 y=1
MFENCE waits; x=1 mfence eax=y hlt | y=1 mfence eax=x hlt; 1; \
0 plain, 1 plain, 0 drained, 1 drained, 0 plain, 1 plain, 0 plain, 1 plain; \
eax=1 eip=112, eax=1 eip=125, x=1 y=1
LFENCE and SFENCE do not; x=1 lfence sfence eax=y | y=1 lfence sfence eax=x; 1; \
0 plain, 1 plain, 0 plain, 0 plain, 0 plain, 1 plain, 1 plain, 1 plain; \
eax=0 eip=115 pending D 1000=1, eax=0 eip=12a pending D 1040=1, x=0 y=0
XCHG waits, and its store is in memory at once; x=1 eax=2 xchg_y; 64; \
0 plain, 0 plain, 0 drained, 0 plain; eax=0 eip=115, x=1 y=2
so does an instruction behind LOCK; x=1 lock_inc_x; 64; 0 plain, 0 drained, 0 plain; eax=0 eip=111, x=2 y=0
so does CPUID; x=1 cpuid; 64; 0 plain, 0 drained, 0 plain; eax=7 eip=10c, x=1 y=0
two steps load and store through the store buffer; inc_x inc_x; 2; \
0 loaded, 0 plain, 0 loaded, 0 plain, 0 drained; eax=0 eip=10c pending D 1000=2, x=1 y=0
the second of two steps waits for room, and has loaded before; x=5 inc_x; 1; \
0 plain, 0 loaded, 0 drained, 0 plain, 0 drained; eax=0 eip=110, x=6 y=0
a store waits for room; x=1 y=1; 1; 0 plain, 0 drained, 0 plain; eax=0 eip=114 pending D 1040=1, x=1 y=0
where there is room it does not; x=1 y=1; 2; 0 plain, 0 plain; \
eax=0 eip=114 pending D 1000=1 pending D 1040=1, x=0 y=0
the oldest drains first; x=1 y=1; 2; 0 plain, 0 plain, 0 drained; eax=0 eip=114 pending D 1040=1, x=1 y=0
a load has what its own core stored; x=1 eax=x | eax=x; 1; 0 plain, 0 plain, 1 plain; \
eax=1 eip=10f pending D 1000=1, eax=0 eip=114, x=0 y=0
and of two stores the newest; x=1 x=2 eax=x; 2; 0 plain, 0 plain, 0 plain; \
eax=2 eip=119 pending D 1000=1 pending D 1000=2, x=0 y=0
and the pending bytes over those of memory; next=2 eax=x | low=1; 1; \
0 plain, 1 plain, 1 drained, 0 plain; eax=201 eip=10c pending B 1001=2, eax=1 eip=113, x=1 y=0
which drain into it; next=2 eax=x | low=1; 1; \
0 plain, 1 plain, 1 drained, 0 plain, 0 drained; eax=201 eip=10c, eax=1 eip=113, x=201 y=0
each core has its own store before the other's; x=1 eax=x eax=y | y=1 eax=y eax=x; 1; \
0 plain, 1 plain, 0 plain, 1 plain, 0 plain, 1 plain; \
eax=0 eip=114 pending D 1000=1, eax=0 eip=128 pending D 1040=1, x=0 y=0
a later drain wins; x=1 eax=x eax=y | y=2 x=2; 2; \
0 plain, 0 plain, 0 plain, 1 plain, 1 plain, 1 drained, 1 drained, 0 drained; \
eax=0 eip=114, eax=1 eip=128, x=1 y=2
a store hits a transaction when it drains; xbegin+15 eax=x inc_eax x=eax xend hlt hlt | low=7; 1; \
0 begun, 0 inside, 1 plain, 0 inside, 1 drained, 0 conflict; eax=6 eip=115, eax=1 eip=11d, x=7 y=0
a commit comes before the drain; xbegin+15 eax=x inc_eax x=eax xend hlt hlt | low=7; 1; \
0 begun, 0 inside, 1 plain, 0 inside, 0 inside, 0 committed, 1 drained; eax=1 eip=114, eax=1 eip=11d, x=7 y=0
a body loads from memory alone, with none pending; xbegin+15 eax=x inc_eax x=eax xend hlt hlt | low=7; 1; \
0 begun, 0 inside, 1 plain, 0 inside, 0 inside, 0 committed; eax=1 eip=114, eax=1 eip=11d pending B 1000=7, x=1 y=0
a locked store hits at once; xbegin+15 eax=x inc_eax x=eax xend hlt hlt | lock_inc_x; 1; \
0 begun, 0 inside, 1 plain, 0 conflict; eax=6 eip=115, eax=1 eip=11d, x=1 y=0
XBEGIN does not wait, and an abort leaves what is pending; x=1 xbegin+3 xabort eax=y; 1; \
0 plain, 0 begun, 0 xabort, 0 plain; eax=0 eip=118 pending D 1000=1, x=0 y=0
a transaction that aborts is no fence; x=1 xbegin+3 xabort eax=y | y=1 xbegin+3 xabort eax=x; 1; \
0 plain, 1 plain, 0 begun, 0 xabort, 0 plain, 1 begun, 1 xabort, 1 plain; \
eax=0 eip=118 pending D 1000=1, eax=0 eip=130 pending D 1040=1, x=0 y=0
a commit waits; x=1 xbegin+3 xend eax=y; 1; \
0 plain, 0 begun, 0 drained, 0 committed, 0 plain; eax=0 eip=118, x=1 y=0
a body has what was pending before it; x=1 xbegin+8 eax=x xend; 1; \
0 plain, 0 begun, 0 inside, 0 drained, 0 committed; eax=1 eip=118, x=1 y=0
an interrupt leaves what is pending; x=1 xbegin+0 hlt; 1; \
0 plain, 0 begun, 0 interrupt, 0 drained, 0 halted; eax=0 eip=110 Halt, x=1 y=0
";

/// Lists that are none: what is refused, the instructions, how many stores may be pending, the steps, and the index of
/// the step.
pub(super) const REFUSED: &str = "\
a drain where none is pending; x=1; 1; 0 drained; 0
a second drain of one store; x=1; 1; 0 plain, 0 drained, 0 drained; 2
a drain of another core; x=1 | hlt; 1; 0 plain, 1 drained; 1
a drain of a core that has stopped; x=1 hlt; 1; 0 plain, 0 drained, 0 halted, 0 drained; 3
a store without room; x=1 y=1; 1; 0 plain, 0 plain; 1
a third store with room for two; x=1 y=1 x=2; 2; 0 plain, 0 plain, 0 plain; 2
the second of two steps without room; x=5 inc_x; 1; 0 plain, 0 loaded, 0 plain; 2
two steps as one; inc_x; 1; 0 plain; 0
one step as two; x=1; 1; 0 loaded; 0
MFENCE with a store pending; x=1 mfence; 1; 0 plain, 0 plain; 1
XCHG with one pending; x=1 xchg_y; 1; 0 plain, 0 plain; 1
an instruction behind LOCK with one pending; y=1 lock_inc_x; 1; 0 plain, 0 plain; 1
CPUID with one pending; x=1 cpuid; 1; 0 plain, 0 plain; 1
a stop with one pending; x=1 hlt; 1; 0 plain, 0 halted; 1
a commit with one pending; x=1 xbegin+3 xend; 1; 0 plain, 0 begun, 0 committed; 2
a commit with one of two pending; x=1 y=1 xbegin+3 xend; 2; \
0 plain, 0 plain, 0 begun, 0 drained, 0 committed; 4
a core that is not there; x=1 | hlt; 1; 0 plain, 2 plain; 1
";

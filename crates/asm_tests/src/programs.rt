//! Sources that several tests read: transactions with fallbacks and elided locks.

/// A transaction in front of its fallback.
pub const WORKED: &[u8] = b"\
org 0x100\n\
start: xbegin fall\n       inc dword [count]\n       xend\n\
fall:  hlt\n\
section .data\n\
count: dd 5\n";

/// An elided lock round a counter.
pub const ELIDED: &[u8] = b"\
start: mov esi, 1000\n\
.next: xbegin .fall\n       cmp dword [mutex], 0\n       jne .busy\n       \
inc dword [count]\n       xend\n       jmp .done\n\
.busy: xabort 0xff\n\
.fall: mov eax, 1\n       xchg eax, [mutex]\n       test eax, eax\n       jnz .fall\n       \
inc dword [count]\n       mov dword [mutex], 0\n\
.done: dec esi\n       jnz .next\n       hlt\n\
section .data\n\
mutex: dd 0\n       align 64\n\
count: dd 0\n";

//! The text of the program, in the assembler's grammar, but for the number of children.

/// The program's beginning, up to the number of children.
pub(crate) const START: &str = "
# Process 0 makes a pair of streams for each child, forks it, and sends it its number and a descriptor of its file. Then it
# takes from each the sum of the file's bytes, waits for its end, and closes what it has of it.
#
# Each process ends with the number in s10: that of the step in which something else came than what should, or 0.
#
# s0   the number of children
# s1   the number of the child at hand; in a child its own
# s2   where the row of that child stands: 16 bytes with the process's end of the pair, the child's end, and the child
#
# On the stack, all zeros at first:
#    0 ranges of a message: the address and the length of one
#   16 ranges of a content: the address and the length of one
#   32 what is sent or received: ranges, their number, descriptors, their number, flags
#   72 what was sent or received: how many bytes, how many descriptors, flags
#   96 the message, of 4 bytes
#  100 the descriptor that goes with it
#  104 the path of a file, of 4 bytes
#  112 how a file is opened: type, flags, base rights, inheriting rights
#  136 a subscription: userdata, type, descriptor
#  192 an event: userdata, error, type, signal, code
#  256 the content of a file
# 8192 the rows of the children

        lui     t0, 3
        sub     sp, sp, t0
        addi    s0, zero, ";

/// The part of process 0, behind the number of children.
pub(crate) const PARENT: &str = "

        # One range, the message's, and one descriptor at most, whatever is sent and received.
        addi    t0, sp, 96
        sd      t0, 0(sp)
        addi    t0, zero, 4
        sd      t0, 8(sp)
        sd      sp, 32(sp)
        addi    t0, zero, 1
        sd      t0, 40(sp)
        addi    t0, sp, 100
        sd      t0, 48(sp)

        # Each child is sent one descriptor, through which its file may be read: FD_READ.
        addi    t0, zero, 1
        sd      t0, 56(sp)
        addi    t0, zero, 2
        sd      t0, 120(sp)

        addi    s1, zero, 0
        lui     t0, 2
        add     s2, sp, t0
next_child:
        addi    s10, zero, 1
        addi    a0, zero, 130           # SOCKET_STREAM
        addi    a7, zero, 5             # fd_create2
        ecall
        bne     a0, zero, exit
        sw      a1, 0(s2)
        sw      a2, 4(s2)

        addi    s10, zero, 2
        addi    a7, zero, 40            # proc_fork
        ecall
        bne     a0, zero, exit
        addiw   t0, a1, 1
        beq     t0, zero, child
        sw      a1, 8(s2)

        addi    s10, zero, 3
        addi    t0, zero, 102           # the letter f
        jal     ra, write_path
        addi    a0, zero, 0             # in descriptor 0
        addi    a1, sp, 104
        addi    a2, zero, 4
        addi    a3, zero, 0
        addi    a4, sp, 112
        addi    a7, zero, 21            # file_open
        ecall
        bne     a0, zero, exit
        sw      a1, 100(sp)

        addi    s10, zero, 4
        sw      s1, 96(sp)
        lwu     a0, 0(s2)
        addi    a1, sp, 32
        addi    a2, sp, 72
        addi    a7, zero, 44            # sock_send
        ecall
        bne     a0, zero, exit
        ld      t0, 72(sp)
        addi    t1, zero, 4
        bne     t0, t1, exit

        addi    s10, zero, 5
        lwu     a0, 100(sp)
        addi    a7, zero, 3             # fd_close
        ecall
        bne     a0, zero, exit

        addi    s1, s1, 1
        addi    s2, s2, 16
        bne     s1, s0, next_child

        # The sums come whole, WAITALL, and without a descriptor.
        sd      zero, 56(sp)
        addi    t0, zero, 16
        sh      t0, 64(sp)
        addi    t0, zero, 7             # PROC_TERMINATE
        sb      t0, 144(sp)

        addi    s1, zero, 0
        lui     t0, 2
        add     s2, sp, t0
next_sum:
        addi    s10, zero, 6
        lwu     a0, 0(s2)
        addi    a1, sp, 32
        addi    a2, sp, 72
        addi    a7, zero, 43            # sock_recv
        ecall
        bne     a0, zero, exit
        ld      t0, 72(sp)
        addi    t1, zero, 4
        bne     t0, t1, exit

        addi    s10, zero, 7
        jal     ra, add_up
        lwu     t1, 96(sp)
        bne     t0, t1, exit

        addi    s10, zero, 8
        lw      t0, 8(s2)
        sw      t0, 152(sp)
        addi    a0, sp, 136
        addi    a1, sp, 192
        addi    a2, zero, 1
        addi    a7, zero, 37            # poll
        ecall
        bne     a0, zero, exit
        addi    t0, zero, 1
        bne     a1, t0, exit

        # It exited, and with 0.
        addi    s10, zero, 9
        lhu     t0, 200(sp)
        bne     t0, zero, exit
        lbu     t0, 208(sp)
        bne     t0, zero, exit
        lwu     t0, 212(sp)
        bne     t0, zero, exit

        addi    s10, zero, 10
        lwu     a0, 8(s2)
        addi    a7, zero, 3             # fd_close
        ecall
        bne     a0, zero, exit
        lwu     a0, 0(s2)
        ecall
        bne     a0, zero, exit
        lwu     a0, 4(s2)
        ecall
        bne     a0, zero, exit

        addi    s1, s1, 1
        addi    s2, s2, 16
        bne     s1, s0, next_sum

        addi    s10, zero, 0
exit:
        addi    a0, s10, 0
        addi    a7, zero, 39            # proc_exit
        ecall
";

/// The part of a child.
pub(crate) const CHILD: &str = "
child:
        # The message comes whole, WAITALL, with room for its descriptor.
        addi    s10, zero, 11
        addi    t0, zero, 1
        sd      t0, 56(sp)
        addi    t0, zero, 16
        sh      t0, 64(sp)
        lwu     a0, 4(s2)
        addi    a1, sp, 32
        addi    a2, sp, 72
        addi    a7, zero, 43            # sock_recv
        ecall
        bne     a0, zero, exit
        ld      t0, 72(sp)
        addi    t1, zero, 4
        bne     t0, t1, exit
        ld      t0, 80(sp)
        addi    t1, zero, 1
        bne     t0, t1, exit
        lwu     t0, 96(sp)
        bne     t0, s1, exit

        # The whole file is read at once, of 32 bytes more than the one before.
        addi    s10, zero, 12
        addi    t0, sp, 256
        sd      t0, 16(sp)
        lui     t0, 1
        sd      t0, 24(sp)
        lwu     a0, 100(sp)
        addi    a1, sp, 16
        addi    a2, zero, 1
        addi    a7, zero, 10            # fd_read
        ecall
        bne     a0, zero, exit
        addi    t0, s1, 1
        slli    t0, t0, 5
        bne     a1, t0, exit
        sd      a1, 24(sp)

        # It may not be written.
        addi    s10, zero, 13
        lwu     a0, 100(sp)
        addi    a1, sp, 16
        addi    a2, zero, 1
        addi    a7, zero, 16            # fd_write
        ecall
        addi    t0, zero, 76            # NOTCAPABLE
        bne     a0, t0, exit

        # s3 is the sum of the bytes. To each the child's number is added.
        addi    s3, zero, 0
        addi    t0, sp, 256
        ld      t1, 24(sp)
        add     t1, t0, t1
next_byte:
        lbu     t2, 0(t0)
        add     s3, s3, t2
        add     t2, t2, s1
        sb      t2, 0(t0)
        addi    t0, t0, 1
        bne     t0, t1, next_byte

        addi    s10, zero, 14
        addi    t0, zero, 103           # the letter g
        jal     ra, write_path
        addi    t0, zero, 64            # FD_WRITE
        sd      t0, 120(sp)
        addi    a0, zero, 1             # in descriptor 1
        addi    a1, sp, 104
        addi    a2, zero, 4
        addi    a3, zero, 5             # CREAT and EXCL
        addi    a4, sp, 112
        addi    a7, zero, 21            # file_open
        ecall
        bne     a0, zero, exit

        addi    s10, zero, 15
        addi    a0, a1, 0
        addi    a1, sp, 16
        addi    a2, zero, 1
        addi    a7, zero, 16            # fd_write
        ecall
        bne     a0, zero, exit
        ld      t0, 24(sp)
        bne     a1, t0, exit

        addi    s10, zero, 16
        sw      s3, 96(sp)
        sd      zero, 56(sp)
        sh      zero, 64(sp)
        lwu     a0, 4(s2)
        addi    a1, sp, 32
        addi    a2, sp, 72
        addi    a7, zero, 44            # sock_send
        ecall
        bne     a0, zero, exit
        ld      t0, 72(sp)
        addi    t1, zero, 4
        bne     t0, t1, exit

        addi    s10, zero, 0
        jal     zero, exit
";

/// What both parts call.
pub(crate) const ROUTINES: &str = "
# Writes the letter in t0 and three digits of s1 as the path of a file.
write_path:
        sb      t0, 104(sp)
        addi    t0, zero, 10
        remu    t1, s1, t0
        addi    t1, t1, 48
        sb      t1, 107(sp)
        divu    t2, s1, t0
        remu    t1, t2, t0
        addi    t1, t1, 48
        sb      t1, 106(sp)
        divu    t2, t2, t0
        addi    t2, t2, 48
        sb      t2, 105(sp)
        jalr    zero, 0(ra)

# The sum of the bytes of file s1, in t0. Byte k is 7 * k + 13 * s1 + s0 modulo 251. Of 251 bytes in a row each is another
# number below 251, so that their sum is 31375; what is behind the last such row is added byte by byte.
add_up:
        addi    t1, s1, 1
        slli    t1, t1, 5
        addi    t2, zero, 251
        divu    t3, t1, t2
        remu    t1, t1, t2
        lui     t0, 8
        addi    t0, t0, -1393
        mul     t0, t0, t3
        addi    t3, zero, 13
        mul     t3, t3, s1
        add     t3, t3, s0
next_term:
        beq     t1, zero, added_up
        remu    t4, t3, t2
        add     t0, t0, t4
        addi    t3, t3, 7
        addi    t1, t1, -1
        jal     zero, next_term
added_up:
        jalr    zero, 0(ra)
";

//! What becomes of the overlays of 64 pages in the run `--make 1`, as a model has it that was written apart from this. It begins with
//! process 1, and with two frames that are taken: the zero frame, and that of the program's code.
//!
//! | Sign | What it says |
//! |---|---|
//! | `+` | each page behind it: its overlay begins, with one unit, or ends and begins with twice as many |
//! | `-` | each page behind it: its overlay ends |
//! | `*` | each page behind it: its overlay ends, and a frame is taken |
//! | `&` | each page behind it: it is copied to the next space, with an overlay of the same size |
//! | `?` to `~` | a page of the process |
//! | `/` | from process 1 to process 2, or back |
//! | `1` to `>`, which are 1 to 14 | that the overlay of the page before it ended, and four times as many lines were copied; where there is none, no line was |

/// What becomes of them.
pub(super) const RUN: &str =
    "+N}yxgeJIh\\rEUszFj]uc~fSam{?Tldw@vGkKDVQRBZfl1LtypqnYCo^h`Wu1N|Et3Hs1\\~3_OUiPXLR3Kp1r[Vq1I^3g@1}
bMS1?k3Ad1{Z3eJ1c]3wIv3|o1tYB1~bD1XO3ix1u`a1M@2n1rFG1zQ3j]m3{2N?6ge2CS2A1ZE2[f2D_3p2Wq2hv2`T7i2s
k2Qb6cj2Ma6HF2oU6PXL2lR6Kw2yC6|W2zV6[x2\\A6T^2B_4m}2rL<GJ6dfp<QO6t4PH6?4cYnkI<sC4`h<v}4ZD<FE4wl<X
~4]g<yN4uG<@a4Mq8b|4{V<e[jH<JB4oi<d\\4_U<TK4OW<RAPS<zx4nm8Y^pr8L?8Mj8ug8E~8f}8CZ8lQ8]T8vy8BH8[\\8F
I8`V8hw8NX8kc8qe8bG8aA8Ki8@R8zo8PD8O|8UJ8Ws8d{8nm8Yt8Sx_^*?@ABCDEFGHIJKLMNOPQRSTUVWXYZ[\\]^_`abcd
efghijklmnopqrstuvwxyz{|}~+uhy|GZHKTtb@iJ}zDVM`XLo\\yUENYT1ljG_R^~SxwPvko1[pd{BOgqsmnD1cASJ1Eu3?K
1j\\3fv1lINot7hWPC{r[L3UZ1eV1a]i_3@FTdz1|x3ns1vE2fc3Ip1jWGQr[y2{~7U2YP2a1Os2F1mH3ep@6`1b}3?R1WqN^
3D2kQ3MJd2C1f]mS2Z`6ec2OB7V2lwXHt6^q2IAKw2nR6Yr2zo4\\a}6XF2kg6h2L~t_b2u?6]M2T|C2Aw4vQ6[4bj<pB{n8U
O4SP<Ng4q4u`<iI4dE<Wx4L4s?<J@4QR<KD4}Z<Ch4~H<yzrM<Vf4\\c<B_4ge<G^4|A<kY4lm8Xn]<Fi4ax8j8bv8wJ8dP8[
@8zL8KS8Mc8UB8rN8to8{E8CA8`F8Gy8Th8Vu8Ws8_x8Dp8Iq8}m8Hg8e|8O?8Xf8Qa8\\^8kR8Zi8~Y8]l-?@ABCDEFGHIJK
LMNOPQRSTUVWXYZ[\\]^_`abcdefghijklmnopqrstuvwxyz{|}~+~nQ{wOvoP/~nQ{wOvoP/ICcU\\|_y/ICcU\\|_y/qez@`D
/qez@`D/]j^AY/]j^AY/lSsdW/lSsdW/N}fB/N}fB/M[hiuE/M[hiuE/r/r/en3~xGg\\/e1n~3xGg\\1/v?SVcU/v?SVcU2/p
L/pL/Jbl/Jbl1/KJ1/KJ1/ak}/ak}1/RZ]/RZ]1/Mb3/Mb1/ts1r/tsr3/{N1DT/{N1DT/_Hda3u/_1Hd1au1/FP1g/FPg3/
y`1/y`3/W/W1/mB1/mB1/Az3j|1E/A3zj1|E3/TXk/T3Xk1/K/K3/{2vmS/{6vm3S2/CO3f/C1Of3/c2^\\2V1q/c2^1\\Vq1/
p]2rl6/p1]r2l/xd/x3d2/L~2/L~/o/o1/H/H3/?/?1/kYJ/k6Y1J/i/i1/gwQ1a/g2wQ3a2/jZb|6/jZ3b2|/^6/^/m2DU6
/mD2U/t/t1/N[F1/N[F1/Kx2/Kx6/s/s2/qC6R/q2CR6/@YO2iQ6/@1YO2iQ6/GM2/G1M/T6u/T2u/h/h/X`2E/X6`2E/z2I
[2/zI2[2/oP6/oP2/}/}6/p/p2/?/?6/v4/v/W/W2/F/F6/w/w2/By6/By2/n/n6/RA2e/R6Ae2/_G6H/_2GH6/~4X/~4X2/
|/|</I/I6/{4/{/h/h2/ZO4/Z2O/d</d/g4/g/j</j/k4/k/\\</\\/t}/t>}4/Df/Df>/V/V/E/E4/[/[</H/H4/N@/N@6/u4
/u/J</J/a4/a/U</U/Y4?/Y<?/I4/I/C<L/C4L/SA8/SA4/r/r8/MQ4/MQ</p/p4/cq</cq4/b/b</X/X4/mi</mi4/l/l</
`/`4/x/x</W/W4/T/T</Z/Z4/GP</GP4/y/y</eK4/eK</o]4/o]</B/B4/w/w</@/@4/V/V</nR4/nR</_/_4/t/t</^/^/
z/z8/s/s4/L/L</v8/v/d8/d/F/F4/fh</fh/|/|8/p/p8/n/n8/q/q8/C/C/Y/Y8/U/U/o/o8/y/y8/PT8/PT8/r/r8/?~8
M/?8~M8/AE8/AE8/x/x8/S/S8/K/K8/@/@8/w/w8/\\/\\/I/I8/g/g8/GW8/GW8/s/s8/tl8/tl8/z/z8/`/`8/i/i8/F/F8/
_/_8/O}8/O}8/e/e8/V/V8/k/k8/Rc8/Rc8/b/b8/*?@ABCD8EFGHIJ8KLMN8OPQRSTUVWX8YZ[8\\]^8_`abcdef8ghij8kl
mnopqrstu8vwxyz{|}~+cKUPoAGXtb\\DZBYx^~k{zJI|pfegv@T]EiQM}[lFGOn^1bHyN?uCWdk1jp1msR]1qa|c1_u1SY1Z
@3wf1?`X{1eN3\\rng3KM1Pq3[t1~d3U]b2C1rD2x_1Q`3H@k6J1ml3p2zc2VGiw1FN2y1}[2gE7OT1Y\\2?u6Lhz2aJ2S1iK2
yhA1vs3|2^t6jw2o1X_6fR`U6ZW3F2LM2HE2CB7O2eq2Pm6Is2~o6TV2d2{j6aB2rA6}h2_QR2lS6Dn2vx6VpL4U4bI[i4FP
<WgE4?H<cT4tw8]f4Y|<G/&?@ABCDEFGHIJKLMNOPQRSTUVWXYZ[\\]^_`abcdefghijklmnopqrstuvwxyz{|}~/+u</u8/y
\\<OD4/ZX8D/e^4kq<l/JH8Bm8/X4`/[8/V4rB<xo4~C<zn@Z<mJ4/L/S/^/N<Ks4}/N8/L4R/a8{/M<IWQv<d/Qf8/j4{/]8
/a4chU/j8/A[_8]\\8bi8uP8gw8fC8EO8GS8Hz8lD8/h/?8tF8RI8kr8}W8Vv8TZ8|p8jN8yY8~J8q@8Ld8me8ox8AB8s{8Qn
`X8ha8^M8K-?@ABCDEFGHIJKLMNOPQRSTUVWXYZ[\\]^_`abcdefghijklmnopqrstuvwxyz{|}~
";
